// Tables made anew.
use super::rows::Step;
use super::tally::Tally;
use lookup::Name;

// A fresh one; one with four reads for each station; or one of numbers that no call wrote. Any other step makes none.
pub fn made(table: &mut [u64; 161], step: Step, t: Tally) -> Tally {
    match step {
        Step::Fresh => *table = station_queue::fresh(),
        Step::Fill => fill(table),
        Step::Spoil(seed) => spoil(table, seed),
        Step::Highest => *table = [18446744073709551615; 161],
        _ => {}
    }
    t
}

fn fill(table: &mut [u64; 161]) {
    let t = Tally::new(false);
    for k in 0..64u64 {
        super::calls::entered(table, k / 4, Name::Metadata, k % 4, t);
    }
}

// Numbers below 23.
fn spoil(table: &mut [u64; 161], seed: u64) {
    let mut next = seed % 23;
    for number in table {
        *number = next;
        next = next.wrapping_add(7) % 23;
    }
}
