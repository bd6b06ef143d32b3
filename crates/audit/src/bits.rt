// The bitfield file, byte by byte against its image. All of these are inner.
ghost use Rattle.std.specs.Prelude.{◌≡◌, ◌+◌, ◌*◌, ◌-◌, ◌≤◌, ◌<◌, get_or};
ghost use Rattle.answer_types.specs.Verdict.{bitfield as at_byte, done};
ghost use Rattle.answer_types.specs.Meaning.{said};
ghost use Rattle.bitfield.specs.Bits.{bit, byte_of};
ghost use Rattle.bitfield.specs.Image.{entry_count};
ghost use Rattle.file_format.specs.Sizes.{used_bitfield};
ghost use Rattle.audit.specs.Audit.{lowest, held_bits, refused_at, byte_right_by};
ghost use Rattle.audit.specs.BitfieldEntries.{eight, tree_bits, entry_with, BitsIn, AtBits};

use answer_types::Refusal;
use number_types::{ByteOffset, ChunkNumber, TreeIndex};

fn bit_of(b: bool) -> u8
    ensures { (result ≡ bit b) × (result ≤ 1) }
{
    u8::from(b)
}

// Eight bits in a byte, the first the highest.
fn byte_of(a: bool, b: bool, c: bool, d: bool, e: bool, f: bool, g: bool, h: bool) -> u8
    ensures { result ≡ eight a b c d e f g h }
{
    let high = 128 * bit_of(a) + 64 * bit_of(b) + 32 * bit_of(c) + 16 * bit_of(d);
    high + 8 * bit_of(e) + 4 * bit_of(f) + 2 * bit_of(g) + bit_of(h)
}

// Whether the chunk k behind a chunk is one of n and held: its stored data bit, and 0 from n on.
fn held_behind(xs: &[u8], n: u64, c: ChunkNumber, k: u64) -> bool
    requires { (c.0 + k < 4194304) × BitsIn xs.now n }
    ensures { result ≡ held_bits xs.now n (c.0 + k) }
{
    let behind = ChunkNumber(c.0 + k);
    if n <= behind.0 {
        return false;
    }
    bitfield::is_held(xs, behind)
}

// The byte of the data bits from a chunk on, as they are right: those that are stored below n, and zeros behind them.
fn data_byte(xs: &[u8], n: u64, c: ChunkNumber) -> u8
    requires { (c.0 + 7 < 4194304) × BitsIn xs.now n }
    ensures { result ≡ byte_of (held_bits xs.now n) c.0 }
{
    byte_of(
        held_behind(xs, n, c, 0),
        held_behind(xs, n, c, 1),
        held_behind(xs, n, c, 2),
        held_behind(xs, n, c, 3),
        held_behind(xs, n, c, 4),
        held_behind(xs, n, c, 5),
        held_behind(xs, n, c, 6),
        held_behind(xs, n, c, 7),
    )
}

// Whether the tree bit of the entry k behind a tree index is to be 1: that of a filled entry, and in a partial copy only where it is 1.
fn tree_behind(xs: &[u8], n: u64, i: TreeIndex, k: u64, partly: bool) -> bool
    requires { (i.0 + k < 4194304) × BitsIn xs.now n }
    ensures { result ≡ tree_bits partly xs.now n (i.0 + k) }
{
    let behind = TreeIndex(i.0 + k);
    if !tree_index::is_filled(n, behind) {
        return false;
    }
    if !partly {
        return true;
    }
    bitfield::is_known(xs, behind)
}

// The byte of the tree bits from a tree index on.
fn tree_byte(xs: &[u8], n: u64, i: TreeIndex, partly: bool) -> u8
    requires { (i.0 + 7 < 4194304) × BitsIn xs.now n }
    ensures { result ≡ byte_of (tree_bits partly xs.now n) i.0 }
{
    byte_of(
        tree_behind(xs, n, i, 0, partly),
        tree_behind(xs, n, i, 1, partly),
        tree_behind(xs, n, i, 2, partly),
        tree_behind(xs, n, i, 3, partly),
        tree_behind(xs, n, i, 4, partly),
        tree_behind(xs, n, i, 5, partly),
        tree_behind(xs, n, i, 6, partly),
        tree_behind(xs, n, i, 7, partly),
    )
}

// The first chunk that the data byte j of entry e tells of.
fn first_chunk(e: u64, j: u64) -> ChunkNumber
    requires { (e < 128) × (j < 1024) }
    ensures { result.0 ≡ 8192 * e + 8 * j }
{
    ChunkNumber(8192 * e + 8 * j)
}

// The first tree index that the tree byte j of entry e tells of.
fn first_index(e: u64, j: u64) -> TreeIndex
    requires { (e < 128) × (j < 2048) }
    ensures { result.0 ≡ 16384 * e + 8 * j }
{
    TreeIndex(16384 * e + 8 * j)
}

// The byte j of entry e, with the Index bytes that are handed in.
fn expected_byte(xs: &[u8], n: u64, e: u64, j: u64, index: &[u8; 256], partly: bool) -> u8
    requires { (e < 128) × (j < 3328) × BitsIn xs.now n }
    ensures { result ≡ get_or (entry_with (held_bits xs.now n) (tree_bits partly xs.now n) e index.now) j 0 }
{
    if j < 1024 {
        return data_byte(xs, n, first_chunk(e, j));
    }
    if j < 3072 {
        return tree_byte(xs, n, first_index(e, j - 1024), partly);
    }
    let k = (j - 3072) as usize;
    index[k]
}

// Where entry e begins.
fn entry_offset(e: u64) -> ByteOffset
    requires { e < 128 }
    ensures { result.0 ≡ 32 + 3328 * e }
{
    ByteOffset(32 + 3328 * e)
}

// The lowest wrong byte of entry e. Its Index is judged by the stored data bytes: a wrong one of these comes first.
fn wrong_in_entry(xs: &[u8], n: u64, e: u64, partly: bool) -> Result<(), Refusal>
    requires { AtBits xs.now n e }
    ensures { said result ≡
        refused_at 11 at_byte
        (lowest (byte_right_by (tree_bits partly xs.now n) xs.now n) (32 + 3328 * e) 3328) done }
{
    let at = entry_offset(e);
    let from = at.0 as usize;
    let end = from + 1024;
    let index = bitfield::index::index_of(&xs[from..end]);
    for j in 0..3328 {
        let place = (at.0 + j) as usize;
        if xs[place] != expected_byte(xs, n, e, j, &index, partly) {
            return answer_types::refuse_byte(11, ByteOffset(at.0 + j));
        }
    }
    Ok(())
}

// Inner: how many entries the bitfield file of n chunks has.
#[tactic(auto, unfolding(bitfield::specs::Image::entry_count))]
pub fn row_count(n: u64) -> u64
    requires { n ≤ 1048576 }
    ensures { result ≡ entry_count n }
{
    (n + 8191) / 8192
}

// Inner: the lowest wrong byte of the entries from `from` on and before `end`, entry by entry.
pub fn wrong_in_entries(xs: &[u8], n: u64, partly: bool, from: u64, end: u64) -> Result<(), Refusal>
    requires { BitsIn xs.now n × (end ≤ entry_count n) }
    ensures { said result ≡
        refused_at 11 at_byte
        (lowest (byte_right_by (tree_bits partly xs.now n) xs.now n) (32 + 3328 * from) (3328 * (end - from))) done }
{
    for e in from..end {
        let answer = wrong_in_entry(xs, n, e, partly);
        let Ok(()) = answer else {
            return answer;
        };
    }
    Ok(())
}

// Inner: the lowest wrong byte of the file behind its header. In a partial copy the tree bit of an entry may be 0 that is no hole.
pub fn wrong_byte(xs: &[u8], n: u64, partly: bool) -> Result<(), Refusal>
    requires { BitsIn xs.now n }
    ensures { said result ≡
        refused_at 11 at_byte
        (lowest (byte_right_by (tree_bits partly xs.now n) xs.now n) 32 (used_bitfield n - 32)) done }
{
    wrong_in_entries(xs, n, partly, 0, row_count(n))
}
