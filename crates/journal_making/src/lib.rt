// Making a journal in a buffer that is lent: begin, put range by range, end. The end judges all of it as reading does, before it writes.
#![tactic(auto)]

ghost use Rattle.std.specs.Prelude.{◌≡◌, ◌+◌, ◌*◌, ◌≤◌, ◌<◌, length, OnOk};
ghost use Rattle.byte_strings.specs.Lists.{put as put_at};
ghost use Rattle.blake2b.specs.Hash.{node_hash};
ghost use Rattle.journal.specs.Form.{words};
ghost use Rattle.journal.specs.Kinds.{number_of};
ghost use Rattle.journal_making.specs.Making.{begin_said, begun, fitting, range_bytes, room_for, put_said, put_after, end_said, end_after};

use journal::{JournalError, Kind};

// Inner: numbers of eight bytes, one behind another.
fn write_words(journal: &mut [u8], at: usize, numbers: &[u64])
    requires { at + 8 * length numbers.now ≤ length journal.old }
    ensures { journal.new ≡ put_at journal.old at (words numbers.now) }
{
    for (i, number) in numbers.iter().enumerate() {
        byte_strings::copy_to(journal, at + 8 * i, &byte_strings::be64(*number));
    }
}

// Begins a journal with the old and the new state of each file; the first range's place.
// The states are twenty numbers in a list, as `sleep_flat_journal_begin` is lent them.
#[tactic(auto, unfolding(crate::specs::Making::begin_said, crate::specs::Making::begun, journal::specs::Reading::whether, journal::specs::Reading::if_done))]
pub fn begin(journal: &mut [u8], states: &[u64; 20]) -> Result<usize, JournalError>
    ensures value { result ≡ begin_said journal.old }
    ensures journal_after { journal.new ≡ begun states.now journal.old }
{
    if journal.len() < 216 {
        return Err(JournalError::Length);
    }
    byte_strings::copy_to(journal, 0, b"sleep-archive 2\n");
    byte_strings::clear(journal, 16, 8);
    write_words(journal, 24, states);
    Ok(184)
}

// Whether so many old and new bytes are those of a range.
#[tactic(auto, unfolding(crate::specs::Making::fitting))]
fn is_fitting(kind: Kind, size: u64, old: u64, new: u64) -> bool
    ensures { result ≡ fitting (number_of kind) size old new }
{
    match kind {
        Kind::Replaced => old == size && new == size,
        Kind::Fresh => old == 0 && new == size,
        Kind::Blank => old == 0 && new == 0,
        Kind::Witness => old == size && new == 0,
    }
}

// Whether a range and a hash have room behind a place.
#[tactic(auto, unfolding(crate::specs::Making::room_for))]
fn has_room(long: usize, at: usize, old: usize, new: usize) -> bool
    ensures { result ≡ room_for long at old new }
{
    if long < 50 || long - 50 < at || long - 50 - at < old {
        return false;
    }
    new <= long - 50 - at - old
}

// A range to be put: its numbers as FORMAT.md has them, and its old and its new bytes, as its kind asks.
// File and kind are numbers that are judged: `put_said` refuses those that name none.
#[derive(Clone, Copy)]
pub struct Range<'a> {
    pub file: u64,
    pub kind: u64,
    pub offset: u64,
    pub size: u64,
    pub old: &'a [u8],
    pub new: &'a [u8],
}

// Inner: a range of one of the ten files, with its bytes, at a place.
fn write_range(journal: &mut [u8], at: usize, kind: Kind, range: &Range)
    requires { (range.now.file < 10) × (at + 18 + (length range.now.old.now + length range.now.new.now) ≤ length journal.old) }
    ensures { journal.new ≡ put_at journal.old at (range_bytes range.now.file (number_of kind) range.now.offset range.now.size range.now.old.now range.now.new.now) }
{
    let first = [range.file as u8, u8::from(kind)];
    byte_strings::copy_to(journal, at, &first);
    byte_strings::copy_to(journal, at + 2, &byte_strings::be64(range.offset));
    byte_strings::copy_to(journal, at + 10, &byte_strings::be64(range.size));
    byte_strings::copy_to(journal, at + 18, range.old);
    byte_strings::copy_to(journal, at + 18 + range.old.len(), range.new);
}

// Puts a range at a place; the next range's place.
#[tactic(auto, unfolding(crate::specs::Making::put_said, crate::specs::Making::put_after, crate::specs::Making::room_for, journal::specs::Reading::whether, journal::specs::Reading::if_done))]
pub fn put(journal: &mut [u8], at: usize, range: &Range) -> Result<usize, JournalError>
    ensures value { result ≡ put_said journal.old at range.now.file range.now.kind range.now.size range.now.old.now range.now.new.now }
    ensures journal_after { journal.new ≡ put_after journal.old at range.now.file range.now.kind range.now.offset range.now.size range.now.old.now range.now.new.now }
{
    let old = range.old.len();
    let new = range.new.len();
    if 10 <= range.file {
        return Err(JournalError::Unfit);
    }
    let kind = Kind::try_from(range.kind)?;
    if !is_fitting(kind, range.size, old as u64, new as u64) {
        return Err(JournalError::Unfit);
    }
    if !has_room(journal.len(), at, old, new) {
        return Err(JournalError::Length);
    }
    write_range(journal, at, kind, range);
    Ok(at + 18 + (old + new))
}

// Inner: what the end says, and writes nothing yet.
#[tactic(auto, unfolding(crate::specs::Making::end_said, journal::specs::Reading::whether, journal::specs::Reading::and_then, journal::specs::Places::length_right))]
fn judge_end(journal: &[u8], at: usize) -> Result<usize, JournalError>
    ensures value { result ≡ end_said journal.now at }
    ensures room { OnOk result ((184 ≤ at) × (at + 32 ≤ length journal.now)) }
{
    if journal.len() < 32 || journal.len() - 32 < at {
        return Err(JournalError::Length);
    }
    if !journal::length_right(at + 32) {
        return Err(JournalError::Length);
    }
    if !journal::begins(journal) {
        return Err(JournalError::First);
    }
    journal::judge_table(journal, at)?;
    Ok(at + 32)
}

// Ends a journal whose ranges end at a place: judges it, and writes its length and its hash; its length.
pub fn end(journal: &mut [u8], at: usize) -> Result<usize, JournalError>
    ensures value { result ≡ end_said journal.old at }
    ensures journal_after { journal.new ≡ end_after node_hash journal.old at }
{
    let long = judge_end(journal, at)?;
    let length = byte_strings::be64((at + 32) as u64);
    byte_strings::copy_to(journal, 16, &length);
    let hash = blake2b::hash_parts(b"", b"", &journal[0..at]);
    byte_strings::copy_to(journal, at, &hash);
    Ok(long)
}
