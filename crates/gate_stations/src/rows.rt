// The steps of the stories. Empty serves until no read waits; Wrong serves with an s of the metadata register that no call could use; at Stop
// the registers are changed.
use lookup::Name;
use lookup::Name::{Content, Metadata};

#[derive(Clone, Copy)]
pub enum Step {
    Fresh,
    // A station's read of a chunk.
    Enter(u64, Name, u64),
    Fill,
    // Numbers that no call wrote, by their seed.
    Spoil(u64),
    // The highest number in every place.
    Highest,
    Serve,
    Empty,
    Wrong,
    Stop,
}

const LAST: u64 = 18446744073709551615;

pub fn row(k: u64) -> Step {
    match k {
        0..=11 => beginning(k),
        12..=49 => limit(k - 12),
        50..=64 => later(k - 50),
        65..=142 => flood(k - 65),
        143..=151 => spoilt(k - 143),
        _ => then(k),
    }
}

// Nobody waits; three stations that came the other way round; station 15 alone, twice.
fn beginning(k: u64) -> Step {
    match k {
        0 | 7 => Step::Fresh,
        2 | 3 => Step::Enter(15, Content, 15),
        4 => Step::Enter(1, Content, 1),
        5 => Step::Enter(0, Content, 0),
        8 | 10 => Step::Enter(15, Metadata, 6),
        _ => Step::Empty,
    }
}

// Stations up to 15 are let in, and four reads of each; a station that is not there comes before a full one.
fn limit(k: u64) -> Step {
    match k {
        0 => Step::Fresh,
        1..=7 => Step::Enter(station(k), Content, LAST),
        8 => Step::Enter(5, Content, 1),
        9 => Step::Enter(5, Content, 2),
        10 => Step::Enter(5, Content, 4),
        11 => Step::Enter(5, Content, 6),
        12 => Step::Enter(5, Content, 7),
        13 => Step::Enter(5, Content, 9),
        14 => Step::Fill,
        15..=31 => Step::Enter(k - 15, Metadata, 0),
        32 => Step::Enter(LAST, Metadata, 0),
        33 => Step::Serve,
        34 => Step::Enter(1, Content, 12),
        35 | 36 => Step::Enter(0, Content, 12),
        _ => Step::Empty,
    }
}

fn station(k: u64) -> u64 {
    match k {
        1 => 15,
        2 => 16,
        3 => 17,
        4 => 255,
        5 => 256,
        6 => 4294967296,
        _ => LAST,
    }
}

// Where nobody waits, the station last served stays the same; and refused reads are served and gone.
fn later(k: u64) -> Step {
    match k {
        0 | 7 => Step::Fresh,
        1 => Step::Enter(5, Content, 1),
        3 => Step::Enter(5, Content, 2),
        4 => Step::Enter(6, Content, 2),
        5 => Step::Enter(4, Content, 2),
        8 => Step::Enter(9, Content, 3),
        9 => Step::Enter(9, Content, 8),
        10 => Step::Enter(9, Content, 13),
        11 => Step::Enter(9, Metadata, 7),
        12 => Step::Enter(10, Content, LAST),
        13 => Step::Enter(8, Metadata, 5),
        _ => Step::Empty,
    }
}

// Station 3 enters whenever it can; the others once each, from the highest down. Then each serving is followed by an entry of station 3.
fn flood(k: u64) -> Step {
    match k {
        0 => Step::Fresh,
        1 => Step::Enter(15, Content, 2),
        2..=6 => Step::Enter(3, Metadata, 1),
        7..=36 => {
            let other = 14 - (k - 7) / 2;
            if k % 2 == 1 {
                Step::Enter(other, Content, other % 13)
            } else {
                Step::Enter(3, Metadata, other % 7)
            }
        }
        37..=76 if k % 2 == 1 => Step::Serve,
        37..=76 => Step::Enter(3, Metadata, 6),
        _ => Step::Empty,
    }
}

// Tables that hold anything.
fn spoilt(k: u64) -> Step {
    match k {
        0 => Step::Spoil(1),
        1 | 4 | 7 => Step::Enter(6, Content, 4),
        3 => Step::Spoil(2),
        6 => Step::Highest,
        _ => Step::Empty,
    }
}

// Reads of registers that change before they are served.
fn then(k: u64) -> Step {
    match k {
        178 => Step::Fresh,
        179 => Step::Enter(1, Content, 13),
        180 => Step::Enter(2, Content, 4),
        181 => Step::Enter(3, Metadata, 3),
        182 => Step::Enter(4, Metadata, 3),
        183 => Step::Enter(5, Content, 9),
        185 | 186 | 188 => Step::Serve,
        189 | 190 => Step::Wrong,
        _ => Step::Stop,
    }
}
