// What C is answered by the calls on journals: two numbers, and five for a range.
#![tactic(auto)]

ghost use Rattle.std.specs.Prelude.{◌≡◌, Err};
ghost use Rattle.journal.specs.Found.{numbers_of};
ghost use Rattle.journal.specs.Meaning.{encoded};

use journal::{JournalError, RangeAt};

// The number and the place of a refusal.
fn refused(error: JournalError) -> [u64; 2]
    ensures { result ≡ encoded (Err error) }
{
    match error {
        JournalError::Length => [1, 0],
        JournalError::First => [2, 0],
        JournalError::OwnLength => [3, 0],
        JournalError::State(file) => [4, file as u64],
        JournalError::Range(place) => [5, place as u64],
        JournalError::Gap(file) => [6, file as u64],
        JournalError::Hash => [7, 0],
        JournalError::NotBetween(file) => [8, file],
        JournalError::Byte(offset) => [9, offset as u64],
        JournalError::Unfit => [10, 0],
    }
}

// The number of what a call says, 0 where it is done, and its place: one in the journal, a file's number, or an offset in a file.
pub fn encode(said: Result<usize, JournalError>) -> [u64; 2]
    ensures { result ≡ encoded said }
{
    match said {
        Ok(place) => [0, place as u64],
        Err(error) => refused(error),
    }
}

// A range as five numbers: file, kind, offset, length, and the place of its bytes.
pub fn numbers(range: &RangeAt) -> [u64; 5]
    ensures { result ≡ numbers_of range.now }
{
    let kind = u8::from(range.kind);
    [
        u64::from(range.file),
        u64::from(kind),
        range.offset,
        range.size,
        range.bytes as u64,
    ]
}
