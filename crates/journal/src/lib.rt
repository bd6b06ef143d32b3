// A journal of a change of an archive, read: checked whole, and range by range.
#![tactic(auto)]

mod kinds;
mod ranges;
mod reading;

pub use kinds::Kind;
pub use ranges::{RangeAt, States, length_right, range_at, states_at};
pub use reading::{begins, check, judge_table, next, states};

// Why a call on a journal is refused. A place is one in the journal unless it says otherwise.
#[derive(Clone, Copy, Debug, PartialEq, Eq)]
pub enum JournalError {
    // The length is no journal's, or there is no room.
    Length,
    // The first bytes are none of a journal.
    First,
    // The journal's own length isn't its length.
    OwnLength,
    // The states of this file are wrong.
    State(usize),
    // The range at this place is wrong.
    Range(usize),
    // From the old to the new length of this file not every byte is covered.
    Gap(usize),
    // The hash is wrong.
    Hash,
    // The state of this file as it is, is none between.
    NotBetween(u64),
    // In a file as it is, the byte at this offset is none between.
    Byte(usize),
    // No such file or kind, or not as many bytes as kind and length ask.
    Unfit,
}
