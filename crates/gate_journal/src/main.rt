// Prints the journals of FORMAT.md, made range by range, for comparison with the text in stdout.
#![tactic(auto)]

use journal::JournalError;
use journal_making::Range;

fn main() {
    let mut held = [0u8; 216];
    let length = absent(&mut held);
    told(b"ten absent files: ", length);
    lines(&held);
    let mut held = [0u8; 297];
    let length = keys(&mut held);
    told(b"a key changed and a key made: ", length);
    lines(&held);
}

// Ten absent files that stay absent.
fn absent(held: &mut [u8]) -> Result<usize, JournalError> {
    journal_making::begin(held, &[0; 20])?;
    journal_making::end(held, 184)
}

// A metadata key whose first two bytes change and whose third is a witness, and a content key that is made: four bytes, and zeros.
fn keys(held: &mut [u8]) -> Result<usize, JournalError> {
    let mut states = [0; 20];
    states[16] = 33;
    states[17] = 33;
    states[19] = 33;
    let mut at = journal_making::begin(held, &states)?;
    let ranges = [
        Range {
            file: 8,
            kind: 1,
            offset: 0,
            size: 2,
            old: &[0, 1],
            new: &[238, 255],
        },
        Range {
            file: 8,
            kind: 4,
            offset: 2,
            size: 1,
            old: &[2],
            new: b"",
        },
        Range {
            file: 9,
            kind: 2,
            offset: 0,
            size: 4,
            old: b"",
            new: &[0, 1, 2, 3],
        },
        Range {
            file: 9,
            kind: 3,
            offset: 4,
            size: 28,
            old: b"",
            new: b"",
        },
    ];
    for range in &ranges {
        at = journal_making::put(held, at, range)?;
    }
    journal_making::end(held, at)
}

// The length of a journal that is done.
fn told(name: &[u8], length: Result<usize, JournalError>) {
    gate_printing::text(name);
    match length {
        Ok(length) => {
            gate_printing::number(length as u64);
            gate_printing::text(b" bytes\n");
        }
        Err(_) => gate_printing::text(b"refused\n"),
    }
}

// The bytes in lines of 32, and an empty line.
fn lines(held: &[u8]) {
    for line in held.chunks(32) {
        gate_printing::hex(line);
        gate_printing::text(b"\n");
    }
    gate_printing::text(b"\n");
}
