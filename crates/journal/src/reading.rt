// Reading a journal: the checks 1 to 7 in their order.
ghost use Rattle.std.specs.Prelude.{◌≡◌, ◌+◌, ◌^◌, ◌≤◌, ◌<◌, max, set, get_or, length, Ok, Err, MatchResult};
ghost use Rattle.byte_strings.specs.Lowest.{lowest};
ghost use Rattle.blake2b.specs.Hash.{node_hash};
ghost use Rattle.journal.specs.Form.{right_length, states_right};
ghost use Rattle.journal.specs.Kinds.{number_of};
ghost use Rattle.journal.specs.Places.{old_at, new_at, numbers_at};
ghost use Rattle.journal.specs.Found.{Reads, numbers_of};
ghost use Rattle.journal.specs.Reading.{place_of, state_right, numbers_right, reach_of, old_lengths, is_full, walked, table, read, next_said, states_said};
ghost use Rattle.journal.specs.Reading as Reading;

use super::ranges::{length_right, range_at, states_at};
use super::{JournalError, Kind, RangeAt, States};

// Whether a register's or a copy's file of this number can have this length.
#[tactic(auto, unfolding(crate::specs::Form::right_length, crate::specs::Form::tree_length, crate::specs::Form::signatures_length, crate::specs::Form::bitfield_length, crate::specs::Form::data_length, crate::specs::Form::key_length))]
fn right_length(file: usize, length: u64) -> bool
    ensures { result ≡ right_length file length }
{
    if 8 <= file {
        return length == 32;
    }
    match file % 4 {
        0 => length <= 83886072 && (length == 32 || length % 80 == 72),
        1 => length <= 67108896 && length % 64 == 32,
        2 => length <= 426016 && length % 3328 == 32,
        _ => length <= 68719476736,
    }
}

// Whether a file's states grow, to one that it can have.
#[tactic(auto, unfolding(crate::specs::Form::states_right))]
fn states_right(file: usize, states: States) -> bool
    ensures { result ≡ states_right file states.old states.new }
{
    states.old <= states.new && (states.new == 0 || right_length(file, states.new_length()))
}

// Inner: the lowest file whose states are wrong.
#[tactic(auto, using(byte_strings::proofs::Lowest::lowest_on, byte_strings::proofs::Lowest::lowest_off, byte_strings::proofs::Lowest::lowest_end), unfolding(crate::specs::Reading::state_right))]
fn wrong_state(journal: &[u8]) -> Option<usize>
    requires { 184 ≤ length journal.now }
    ensures { place_of result ≡ lowest (state_right journal.now) 0 10 }
{
    for file in 0..10 {
        if !states_right(file, states_at(journal, file)) {
            return Some(file);
        }
    }
    None
}

// The test of one range by its numbers: behind `start`, and with all up to `covered` covered before it.
#[tactic(auto, unfolding(crate::specs::Reading::numbers_right))]
fn numbers_right(range: &RangeAt, old: u64, new: u64, start: u64, covered: u64) -> bool
    ensures { result ≡ numbers_right (number_of range.now.kind) range.now.offset range.now.size old new start covered }
{
    if range.offset < start {
        return false;
    }
    if new < range.offset || new - range.offset < range.size {
        return false;
    }
    match range.kind {
        Kind::Fresh | Kind::Blank => range.offset <= covered,
        Kind::Replaced | Kind::Witness => range.offset + range.size <= old,
    }
}

// How far a walk over the ranges has come: the last one's file and its end there, and up to where each file is covered.
#[derive(Clone, Copy)]
struct Progress {
    last: u8,
    reach: u64,
    covered: [u64; 10],
}

impl Progress {
    // Where a range of a file may begin.
    #[tactic(auto, unfolding(crate::specs::Reading::reach_of))]
    fn start_in(&self, file: u8) -> u64
        ensures { result ≡ reach_of file self.now.last self.now.reach }
    {
        if file == self.last {
            return self.reach;
        }
        0
    }

    // Inner: the test of a whole range behind those that were passed.
    #[tactic(auto, unfolding(crate::specs::Reading::follows))]
    fn allows(&self, journal: &[u8], range: &RangeAt) -> bool
        requires { (184 ≤ length journal.now) × Reads journal.now range.now.at range.now }
        ensures { result ≡ Reading.follows journal.now self.now.last self.now.reach self.now.covered range.now.at }
    {
        if 10 <= range.file || range.file < self.last || range.size < 1 {
            return false;
        }
        let file = usize::from(range.file);
        let states = states_at(journal, file);
        let start = self.start_in(range.file);
        numbers_right(
            range,
            states.old_length(),
            states.new_length(),
            start,
            self.covered[file],
        )
    }

    // Inner: passes a range.
    fn pass(&mut self, range: &RangeAt)
        requires { (range.now.file < 10) × (range.now.offset + range.now.size < 2 ^ 64) }
        ensures last { self.new.last ≡ range.now.file }
        ensures reach { self.new.reach ≡ range.now.offset + range.now.size }
        ensures covered { self.new.covered ≡ set self.old.covered range.now.file (max (get_or self.old.covered range.now.file 0) (range.now.offset + range.now.size)) }
    {
        let file = usize::from(range.file);
        self.last = range.file;
        self.reach = range.offset + range.size;
        self.covered[file] = self.covered[file].max(self.reach);
    }
}

// Inner: the lengths before the change.
fn old_lengths(journal: &[u8]) -> [u64; 10]
    requires { 184 ≤ length journal.now }
    ensures { result ≡ old_lengths journal.now }
{
    let mut lengths = [0; 10];
    for (file, before) in lengths.iter_mut().enumerate() {
        *before = states_at(journal, file).old_length();
    }
    lengths
}

// Inner: the lowest file that is not covered up to its new length.
#[tactic(auto, using(byte_strings::proofs::Lowest::lowest_on, byte_strings::proofs::Lowest::lowest_off, byte_strings::proofs::Lowest::lowest_end), unfolding(crate::specs::Reading::is_full))]
fn gap(journal: &[u8], covered: &[u64; 10]) -> Option<usize>
    requires { 184 ≤ length journal.now }
    ensures { place_of result ≡ lowest (is_full journal.now covered.now) 0 10 }
{
    for (file, end) in covered.iter().enumerate() {
        if *end < states_at(journal, file).new_length() {
            return Some(file);
        }
    }
    None
}

// Inner: all ranges up to the end, one behind another. Where the next one begins is told by the one before, so no count of steps is known.
fn walk(journal: &[u8], end: usize) -> Result<usize, JournalError>
    requires { (184 ≤ end) × (end ≤ length journal.now) }
    ensures { result ≡ walked journal.now end }
{
    let mut progress = Progress {
        last: 0,
        reach: 0,
        covered: old_lengths(journal),
    };
    let mut at: usize = 184;
    while at < end {
        let Some(range) = range_at(journal, end, at) else {
            return Err(JournalError::Range(at));
        };
        if !progress.allows(journal, &range) {
            return Err(JournalError::Range(at));
        }
        progress.pass(&range);
        at = range.behind;
    }
    match gap(journal, &progress.covered) {
        Some(file) => Err(JournalError::Gap(file)),
        None => Ok(end),
    }
}

// Inner: the table of a journal whose ranges end at `end`: its states, and its ranges.
#[tactic(auto, unfolding(crate::specs::Reading::table, crate::specs::Reading::states_say))]
pub fn judge_table(journal: &[u8], end: usize) -> Result<usize, JournalError>
    requires { (184 ≤ end) × (end ≤ length journal.now) }
    ensures { result ≡ table journal.now end }
{
    match wrong_state(journal) {
        Some(file) => Err(JournalError::State(file)),
        None => walk(journal, end),
    }
}

// Inner: whether a journal begins as one does.
#[tactic(auto, unfolding(byte_strings::specs::Lists::part))]
pub fn begins(journal: &[u8]) -> bool
    requires { 16 ≤ length journal.now }
    ensures { result ≡ Reading.begins journal.now }
{
    let magic = b"sleep-archive 2\n";
    byte_strings::same(&journal[0..16], magic)
}

// Whether bytes are a journal: the encoding of a well_formed one, and no other.
#[tactic(auto, unfolding(crate::specs::Reading::read, crate::specs::Reading::whether, crate::specs::Reading::and_then, crate::specs::Places::length_right))]
pub fn check(journal: &[u8]) -> Result<usize, JournalError>
    ensures { result ≡ read node_hash journal.now }
{
    if !length_right(journal.len()) {
        return Err(JournalError::Length);
    }
    if !begins(journal) {
        return Err(JournalError::First);
    }
    if byte_strings::read_be64(journal, 16) != (journal.len() as u64) {
        return Err(JournalError::OwnLength);
    }
    let end = journal.len() - 32;
    judge_table(journal, end)?;
    let hash = blake2b::hash_parts(b"", b"", &journal[0..end]);
    if !byte_strings::same(&hash, &journal[end..]) {
        return Err(JournalError::Hash);
    }
    Ok(journal.len())
}

// The range at a place of a journal.
#[tactic(auto, unfolding(crate::specs::Reading::next_said, crate::specs::Reading::whether, crate::specs::Places::length_right))]
pub fn next(journal: &[u8], at: usize) -> Result<RangeAt, JournalError>
    ensures { MatchResult result
        (λ range. (next_said journal.now at ≡ Ok range.behind)
        × (numbers_of range ≡ numbers_at journal.now at)
        × (range.at ≡ at))
        (λ error. next_said journal.now at ≡ Err error) }
{
    if !length_right(journal.len()) {
        return Err(JournalError::Length);
    }
    range_at(journal, journal.len() - 32, at).ok_or(JournalError::Range(at))
}

// The states of a file.
#[tactic(auto, unfolding(crate::specs::Reading::states_said, crate::specs::Reading::whether, crate::specs::Places::length_right))]
pub fn states(journal: &[u8], file: u64) -> Result<States, JournalError>
    ensures { MatchResult result
        (λ states. (states_said journal.now file ≡ Ok 0)
        × (states.old ≡ old_at journal.now file)
        × (states.new ≡ new_at journal.now file))
        (λ error. states_said journal.now file ≡ Err error) }
{
    if !length_right(journal.len()) {
        return Err(JournalError::Length);
    }
    if 10 <= file {
        return Err(JournalError::Unfit);
    }
    Ok(states_at(journal, file as usize))
}
