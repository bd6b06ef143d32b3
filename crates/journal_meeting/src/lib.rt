// A file as it is, held against its ranges in a journal: of its bytes only those are read that the ranges of kinds 1 and 4 hold.
#![tactic(auto)]

ghost use Rattle.std.specs.Prelude.{◌≡◌, suc, ◌+◌, ◌≤◌, ◌<◌, length};
ghost use Rattle.journal.specs.Ranges.{replaced};
ghost use Rattle.journal.specs.Form.{state_of};
ghost use Rattle.journal.specs.Places.{range_at};
ghost use Rattle.journal.specs.Found.{Reads};
ghost use Rattle.journal.specs.Reading.{place_of};
ghost use Rattle.journal_meeting.specs.Between.{met_range, state_met};
ghost use Rattle.journal_meeting.specs.Between as Between;

use journal::{JournalError, Kind, RangeAt};

// Inner: the offset of a range of which not all lies in the file, or else of its first byte that is neither the old one nor the new one.
fn first_strange(file: &[u8], at: usize, old: &[u8], new: &[u8]) -> Option<usize>
    requires { length old.now ≡ length new.now }
    ensures { place_of result ≡ met_range file.now (replaced at old.now new.now) }
{
    if file.len() < at || file.len() - at < new.len() {
        return Some(at);
    }
    for i in 0..new.len() {
        let byte = file[at + i];
        if byte != old[i] && byte != new[i] {
            return Some(at + i);
        }
    }
    None
}

// Inner: the first wrong byte of a range of a journal.
#[tactic(auto, using(crate::proofs::Ranges::ends_twice, crate::proofs::Ranges::replaced_met, crate::proofs::Ranges::witness_met, crate::proofs::Ranges::free_met))]
fn met_range(journal: &[u8], range: &RangeAt, file: &[u8]) -> Option<usize>
    requires read { Reads journal.now range.now.at range.now × (range.now.at + 18 ≤ range.now.bytes) }
    requires in_journal { (range.now.bytes ≤ range.now.behind) × (range.now.behind ≤ length journal.now) }
    ensures { place_of result ≡ met_range file.now (range_at journal.now range.now.at) }
{
    let from = range.at + 18;
    let at = range.offset as usize;
    let payload = &journal[from..range.behind];
    match range.kind {
        Kind::Replaced => first_strange(
            file,
            at,
            &journal[from..range.bytes],
            &journal[range.bytes..range.behind],
        ),
        Kind::Witness => first_strange(file, at, payload, payload),
        Kind::Fresh | Kind::Blank => None,
    }
}

// Inner: the ranges from a place on, as long as they are of the file. Where the next one begins is told by the one before.
fn met(
    journal: &[u8],
    end: usize,
    file: u64,
    at: usize,
    bytes: &[u8],
) -> Result<usize, JournalError>
    requires { end ≤ length journal.now }
    ensures { result ≡ Between.met journal.now end file bytes.now (suc (length journal.now)) at }
{
    let mut place = at;
    while place < end {
        let Some(range) = journal::range_at(journal, end, place) else {
            return Ok(place);
        };
        if u64::from(range.file) != file {
            return Ok(place);
        }
        if let Some(offset) = met_range(journal, &range, bytes) {
            return Err(JournalError::Byte(offset));
        }
        place = range.behind;
    }
    Ok(place)
}

// Inner: whether the state of a file, there or absent, is from the old to the new one.
#[tactic(auto, unfolding(crate::specs::Between::state_met))]
fn state_met(journal: &[u8], file: usize, there: bool, long: usize) -> bool
    requires { (file < 10) × (184 ≤ length journal.now) }
    ensures { result ≡ state_met journal.now file (state_of there long) }
{
    let states = journal::states_at(journal, file);
    if there {
        let long = long as u64;
        return long < states.new && states.old_length() <= long;
    }
    states.old == 0
}

// Whether a file as it is, there or absent, is between; its ranges in the journal begin at a place.
// `there` stands beside the bytes, and no option holds both: `sleep_flat_journal_between` is lent bytes of an absent file too, and `between` judges them.
#[tactic(auto, unfolding(crate::specs::Between::between, journal::specs::Reading::whether, journal::specs::Places::length_right))]
pub fn between(
    journal: &[u8],
    file: u64,
    at: usize,
    there: bool,
    bytes: &[u8],
) -> Result<usize, JournalError>
    ensures { result ≡ Between.between journal.now file at there bytes.now }
{
    if !journal::length_right(journal.len()) {
        return Err(JournalError::Length);
    }
    if 10 <= file {
        return Err(JournalError::Unfit);
    }
    if !state_met(journal, file as usize, there, bytes.len()) {
        return Err(JournalError::NotBetween(file));
    }
    met(journal, journal.len() - 32, file, at, bytes)
}
