// The search by the Index, over a bitfield file: a run of 64 chunks has an Index byte, with a tuple for each of its four groups of 16 chunks, and only
// the data bits of groups whose tuple is not 11 are read. All of these are inner: they require the entries that they read to lie in the file.
ghost use Rattle.std.specs.Prelude.{◌≡◌, ◌+◌, ◌-◌, ◌/◌, ◌≤◌, ◌<◌, length};
ghost use Rattle.byte_strings.specs.Lowest.{lowest};
ghost use Rattle.bitfield.specs.Append.{bits_place};
ghost use Rattle.bitfield.specs.Missing.{found_at};
ghost use Rattle.search.specs.Search.{tuples_place, stored_tuples, tuple_in, not_missing};
ghost use Rattle.search.specs.Inner.{DataIn, InGroup, InRun};

use number_types::{ByteOffset, ChunkNumber};

// Where the Index byte of the run of 64 chunks that has a chunk stands in the bitfield file.
#[tactic(auto, using(crate::proofs::Steps::tuples_at))]
fn tuples_place(chunk: ChunkNumber) -> ByteOffset
    ensures { result.0 ≡ tuples_place (chunk.0 / 64) }
{
    let run = chunk.0 / 64;
    ByteOffset(32 + 3328 * (run / 128) + 3072 + 2 * (run % 128))
}

// Inner: the Index byte of the run of 64 chunks that has a chunk, whose bitfield entry lies in the file.
#[tactic(auto, using(crate::proofs::Steps::tuples_in, crate::proofs::Steps::tuples_read))]
fn run_tuples(xs: &[u8], chunk: ChunkNumber) -> u8
    requires { bits_place (chunk.0 / 8192 + 1) ≤ length xs.now }
    ensures { result ≡ stored_tuples xs.now (chunk.0 / 64) }
{
    let place = tuples_place(chunk);
    let at = place.0 as usize;
    xs[at]
}

// The tuple of the group of 16 chunks that has a chunk, out of the Index byte of its run: the first tuple is the highest.
#[tactic(auto, using(crate::proofs::Steps::tuple_at, crate::proofs::Steps::tuple_rest))]
fn group_tuple(byte: u8, chunk: ChunkNumber) -> u8
    ensures { result ≡ tuple_in byte (chunk.0 / 16) }
{
    match chunk.0 / 16 % 4 {
        0 => byte / 64 % 4,
        1 => byte / 16 % 4,
        2 => byte / 4 % 4,
        _ => byte % 4,
    }
}

// Inner: the first chunk that is not passed over and not held, from one up to an end, within a group, which is passed over where its tuple is 11.
#[tactic(auto, using(crate::proofs::Steps::group_over, crate::proofs::Steps::group_read))]
fn in_group(xs: &[u8], tuple: u8, from: u64, end: u64) -> Option<ChunkNumber>
    requires { InGroup xs.now tuple from end }
    ensures { found_at result ≡ lowest (not_missing xs.now) from (end - from) }
{
    if tuple == 3 {
        return None;
    }
    bitfield::first_missing(xs, number_types::chunk_behind(from), end)
}

// Inner: the same within a run, group by group. The first group is begun in its middle and the last is left there, so a `for` over the groups would have to
// cut both in each turn.
#[tactic(auto, using(crate::proofs::Steps::group_in, crate::proofs::Steps::found_here, crate::proofs::Steps::none_here, byte_strings::proofs::Lowest::lowest_end))]
fn by_groups(xs: &[u8], tuples: u8, from: u64, end: u64) -> Option<ChunkNumber>
    requires { InRun xs.now tuples from end }
    ensures { found_at result ≡ lowest (not_missing xs.now) from (end - from) }
{
    let mut k = from;
    while k < end {
        let next = ((k / 16 + 1) * 16).min(end);
        let tuple = group_tuple(tuples, number_types::chunk_behind(k));
        if let Some(chunk) = in_group(xs, tuple, k, next) {
            return Some(chunk);
        }
        k = next;
    }
    None
}

// Inner: the same within a run, all of which is passed over at once where each of its tuples is 11.
#[tactic(auto, using(crate::proofs::Steps::data_at, crate::proofs::Steps::run_over))]
fn in_run(xs: &[u8], from: u64, end: u64) -> Option<ChunkNumber>
    requires { (from < end) × InRun xs.now (stored_tuples xs.now (from / 64)) from end }
    ensures { found_at result ≡ lowest (not_missing xs.now) from (end - from) }
{
    let tuples = run_tuples(xs, number_types::chunk_behind(from));
    if tuples == 255 {
        return None;
    }
    by_groups(xs, tuples, from, end)
}

// Inner: the same among n chunks, run by run, as `by_groups` goes by groups. What it calls for a part asks something else than what that one calls, so one
// function for both would take that as a closure and say in its contract what it asks and gives, which is longer.
#[tactic(auto, using(crate::proofs::Steps::run_in, crate::proofs::Steps::found_here, crate::proofs::Steps::none_here, byte_strings::proofs::Lowest::lowest_end))]
pub fn by_runs(xs: &[u8], from: u64, n: u64) -> Option<ChunkNumber>
    requires { (n ≤ 1048576) × DataIn xs.now n }
    ensures { found_at result ≡ lowest (not_missing xs.now) from (n - from) }
{
    let mut k = from;
    while k < n {
        let next = ((k / 64 + 1) * 64).min(n);
        if let Some(chunk) = in_run(xs, k, next) {
            return Some(chunk);
        }
        k = next;
    }
    None
}
