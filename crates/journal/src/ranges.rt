// What stands at a place of a byte string that is read as a journal, each number held to a bound before it is used.
ghost use Rattle.std.specs.Prelude.{◌≡◌, ◌+◌, ◌*◌, ◌≤◌, ◌<◌, false, length, MatchOption};
ghost use Rattle.journal.specs.Form.{length_of};
ghost use Rattle.journal.specs.Kinds.{number_of};
ghost use Rattle.journal.specs.Places.{times_long, old_at, new_at, bytes_end, new_bytes, whole, length_right};
ghost use Rattle.journal.specs.Found.{IsRangeAt};

use super::Kind;

// Whether a journal may have this length.
#[tactic(auto, unfolding(crate::specs::Places::length_right))]
pub fn length_right(length: usize) -> bool
    ensures { result ≡ length_right length }
{
    216 <= length && length <= 268435456
}

// The old and the new state of a file: 0 where it is absent, else its length and one.
#[derive(Clone, Copy, Debug, PartialEq, Eq)]
pub struct States {
    pub old: u64,
    pub new: u64,
}

impl States {
    // The length before the change.
    pub fn old_length(&self) -> u64
        ensures { result ≡ length_of self.now.old }
    {
        self.old.saturating_sub(1)
    }

    // The length after it.
    pub fn new_length(&self) -> u64
        ensures { result ≡ length_of self.now.new }
    {
        self.new.saturating_sub(1)
    }
}

// Inner: the states of a file in a journal.
pub fn states_at(journal: &[u8], file: usize) -> States
    requires { (file < 10) × (184 ≤ length journal.now) }
    ensures old { result.old ≡ old_at journal.now file }
    ensures new { result.new ≡ new_at journal.now file }
{
    States {
        old: byte_strings::read_be64(journal, 24 + 16 * file),
        new: byte_strings::read_be64(journal, 32 + 16 * file),
    }
}

// A whole range at a place of a journal.
#[derive(Clone, Copy, Debug, PartialEq, Eq)]
pub struct RangeAt {
    // Its place, and the one behind it.
    pub at: usize,
    pub behind: usize,
    // Its numbers.
    pub file: u8,
    pub kind: Kind,
    pub offset: u64,
    pub size: u64,
    // The place of the bytes that stand in the file after the change.
    pub bytes: usize,
}

// The end of so many bytes from a place on, where they end by `end`.
fn step(from: usize, once: usize, end: usize) -> Option<usize>
    requires { from ≤ end }
    ensures { MatchOption result (end < from + once) (λ behind. (behind ≡ from + once) × (behind ≤ end)) }
{
    if end - from < once {
        return None;
    }
    Some(from + once)
}

// Inner: the end of a range's bytes that begin at a place, where they end by `end`.
#[tactic(auto, unfolding(crate::specs::Places::bytes_end, crate::specs::Places::times_long))]
fn bytes_end(kind: Kind, size: u64, from: usize, end: usize) -> Option<usize>
    requires { from ≤ end }
    ensures { result ≡ bytes_end (number_of kind) size from end }
{
    let once = size as usize;
    match kind {
        Kind::Replaced => step(step(from, once, end)?, once, end),
        Kind::Fresh | Kind::Witness => step(from, once, end),
        Kind::Blank => Some(from),
    }
}

// Inner: the place of the bytes that stand in the file after the change, among a range's bytes that begin at a place.
#[tactic(auto, unfolding(crate::specs::Places::new_bytes, crate::specs::Places::times_long))]
fn new_bytes(kind: Kind, size: u64, from: usize, behind: usize) -> usize
    requires { behind ≡ from + times_long (number_of kind) * size }
    ensures { result ≡ new_bytes (number_of kind) size from }
{
    match kind {
        Kind::Replaced => behind - size as usize,
        Kind::Fresh | Kind::Blank | Kind::Witness => from,
    }
}

// Inner: the range at a place, where there is a whole one up to `end`.
pub fn range_at(journal: &[u8], end: usize, at: usize) -> Option<RangeAt>
    requires { end ≤ length journal.now }
    ensures { MatchOption result (whole journal.now end at ≡ false) (λ range. IsRangeAt journal.now end at range) }
{
    if end < at || end - at < 18 {
        return None;
    }
    let Ok(kind) = Kind::try_from(u64::from(journal[at + 1])) else {
        return None;
    };
    let size = byte_strings::read_be64(journal, at + 10);
    let from = at + 18;
    let behind = bytes_end(kind, size, from, end)?;
    Some(RangeAt {
        at,
        behind,
        file: journal[at],
        kind,
        offset: byte_strings::read_be64(journal, at + 2),
        size,
        bytes: new_bytes(kind, size, from, behind),
    })
}
