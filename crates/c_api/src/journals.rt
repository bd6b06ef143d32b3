// The calls on journals. A journal is lent as its bytes; `answer` gets the number of what the call says and a place (`c_journal::encode`).
ghost use Rattle.std.specs.Prelude.{◌≡◌, not, ◌∷◌, [], eqb};
ghost use Rattle.blake2b.specs.Hash.{node_hash};
ghost use Rattle.journal.specs.Places.{old_at, new_at, numbers_at};
ghost use Rattle.journal.specs.Reading.{read, next_said, states_said, if_done};
ghost use Rattle.journal_meeting.specs.Between.{between};
ghost use Rattle.journal_making.specs.Making.{begin_said, begun, put_said, put_after, end_said, end_after};
ghost use Rattle.journal.specs.Meaning.{encoded};

use journal_making::Range;

// Begins a journal with the old and the new state of each of ten files: 0 for absent, else the length and one. Done: where the first range goes.
#[unsafe(no_mangle)]
pub extern "C" fn sleep_flat_journal_begin(
    journal: &mut [u8],
    states: &[u64; 20],
    answer: &mut [u64; 2],
)
    ensures answer_after { answer.new ≡ encoded (begin_said journal.old) }
    ensures journal_after { journal.new ≡ begun states.now journal.old }
{
    *answer = c_journal::encode(journal_making::begin(journal, states));
}

// Puts a range at the place `at`, with its old and its new bytes as its kind asks. Done: where the next one goes.
#[unsafe(no_mangle)]
pub extern "C" fn sleep_flat_journal_put(
    journal: &mut [u8],
    at: u64,
    file: u64,
    kind: u64,
    offset: u64,
    length: u64,
    old: &[u8],
    new: &[u8],
    answer: &mut [u64; 2],
)
    ensures answer_after { answer.new ≡ encoded (put_said journal.old at file kind length old.now new.now) }
    ensures journal_after { journal.new ≡ put_after journal.old at file kind offset length old.now new.now }
{
    let place = at as usize;
    let range = Range {
        file,
        kind,
        offset,
        size: length,
        old,
        new,
    };
    *answer = c_journal::encode(journal_making::put(journal, place, &range));
}

// Ends a journal whose ranges end at `at`: judges it as `sleep_flat_journal_check` does, and writes its length and hash. Done: its length.
#[unsafe(no_mangle)]
pub extern "C" fn sleep_flat_journal_end(journal: &mut [u8], at: u64, answer: &mut [u64; 2])
    ensures answer_after { answer.new ≡ encoded (end_said journal.old at) }
    ensures journal_after { journal.new ≡ end_after node_hash journal.old at }
{
    let place = at as usize;
    *answer = c_journal::encode(journal_making::end(journal, place));
}

// Whether bytes are a journal.
#[unsafe(no_mangle)]
pub extern "C" fn sleep_flat_journal_check(journal: &[u8], answer: &mut [u64; 2])
    ensures { answer.new ≡ encoded (read node_hash journal.now) }
{
    *answer = c_journal::encode(journal::check(journal));
}

// The old and the new state of a file, in `states`.
#[unsafe(no_mangle)]
pub extern "C" fn sleep_flat_journal_states(
    journal: &[u8],
    file: u64,
    states: &mut [u64; 2],
    answer: &mut [u64; 2],
)
    ensures answer_after { answer.new ≡ encoded (states_said journal.now file) }
    ensures states_after { states.new ≡ if_done (states_said journal.now file) (old_at journal.now file ∷ new_at journal.now file ∷ []) states.old }
{
    match journal::states(journal, file) {
        Ok(found) => {
            *states = [found.old, found.new];
            *answer = c_journal::encode(Ok(0));
        }
        Err(error) => *answer = c_journal::encode(Err(error)),
    }
}

// Whether a file as it is, there or absent (`there` is 0), is between; its ranges begin at the place `at`. Done: the place behind them.
#[unsafe(no_mangle)]
pub extern "C" fn sleep_flat_journal_between(
    journal: &[u8],
    file: u64,
    at: u64,
    there: u64,
    bytes: &[u8],
    answer: &mut [u64; 2],
)
    ensures { answer.new ≡ encoded (between journal.now file at (not (eqb there 0)) bytes.now) }
{
    let place = at as usize;
    *answer = c_journal::encode(journal_meeting::between(journal, file, place, there != 0, bytes));
}

// The range at the place `at` as five numbers in `range`: file, kind, offset, length, and the place of its bytes. Done: the place behind it.
#[unsafe(no_mangle)]
pub extern "C" fn sleep_flat_journal_next(
    journal: &[u8],
    at: u64,
    range: &mut [u64; 5],
    answer: &mut [u64; 2],
)
    ensures answer_after { answer.new ≡ encoded (next_said journal.now at) }
    ensures range_after { range.new ≡ if_done (next_said journal.now at) (numbers_at journal.now at) range.old }
{
    let place = at as usize;
    match journal::next(journal, place) {
        Ok(found) => {
            *range = c_journal::numbers(&found);
            *answer = c_journal::encode(Ok(found.behind));
        }
        Err(error) => *answer = c_journal::encode(Err(error)),
    }
}
