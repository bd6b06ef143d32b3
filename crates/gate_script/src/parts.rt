// What is lent and told of the two registers that a script works on.
ghost use Rattle.std.specs.Prelude.{◌≤◌};

use super::reading::Line;
use super::words::Word;
use gate_samples::Told;

// From and to where in an array something lies.
#[derive(Clone, Copy, Default)]
pub struct Part {
    pub from: u64,
    pub to: u64,
}

#[derive(Clone, Copy, Default)]
pub struct Lent {
    pub tree: Part,
    pub signatures: Part,
    pub bitfield: Part,
    pub data: Part,
}

#[derive(Clone, Copy, Default)]
pub struct Register {
    pub lent: Lent,
    pub told: Told,
}

// Before any line nothing is lent or told.
#[derive(Clone, Copy, Default)]
pub struct Both {
    pub first: Register,
    pub second: Register,
}

// The arrays that bytes are shown of or changed in: a register's four, by their numbers from 0 on, or the one of chunks and packets.
#[derive(Clone, Copy)]
pub enum Array {
    Tree,
    Signatures,
    Bitfield,
    Data,
    Text,
}

impl From<u64> for Array {
    fn from(number: u64) -> Array {
        match number {
            0 => Array::Tree,
            1 => Array::Signatures,
            2 => Array::Bitfield,
            3 => Array::Data,
            _ => Array::Text,
        }
    }
}

pub fn between(from: u64, to: u64) -> Part {
    Part { from, to }
}

impl Both {
    // The registers after a line.
    pub fn after(self, line: Line) -> Both {
        let Both { first, second } = self;
        let Register { lent, told } = first;
        match line.word {
            Some(Word::Swap) => self.swapped(),
            Some(Word::Lend) => Both {
                first: Register {
                    lent: lent_in(line.numbers),
                    told,
                },
                second,
            },
            Some(Word::Told) => Both {
                first: Register {
                    lent,
                    told: told_in(line.numbers),
                },
                second,
            },
            _ => self,
        }
    }

    pub fn swapped(self) -> Both {
        Both {
            first: self.second,
            second: self.first,
        }
    }
}

fn lent_in(x: [u64; 16]) -> Lent {
    Lent {
        tree: between(x[1], x[2]),
        signatures: between(x[3], x[4]),
        bitfield: between(x[5], x[6]),
        data: between(x[7], x[8]),
    }
}

fn told_in(x: [u64; 16]) -> Told {
    Told {
        n: x[1],
        s: x[2],
        size: x[3],
    }
}

impl Part {
    // From and to where the part lies in an array of so many bytes, as far as that reaches.
    fn within(self, count: usize) -> (usize, usize)
        ensures { (result.0 ≤ result.1) × (result.1 ≤ count) }
    {
        let to = self.to.min(count as u64);
        let from = self.from.min(to);
        (from as usize, to as usize)
    }
}

// The part of an array, as far as the array reaches.
pub fn of(xs: &[u8], part: Part) -> &[u8] {
    let (from, to) = part.within(xs.len());
    &xs[from..to]
}

pub fn bytes(xs: &[u8], from: u64, to: u64) -> &[u8] {
    of(xs, between(from, to))
}

pub fn of_mut(xs: &mut [u8], part: Part) -> &mut [u8] {
    let (from, to) = part.within(xs.len());
    &mut xs[from..to]
}

// So many bytes that lie somewhere; zeros where the array has fewer.
pub fn copied<const N: usize>(xs: &[u8], at: u64) -> [u8; N] {
    let mut array = [0u8; N];
    let bytes = bytes(xs, at, at.wrapping_add(N as u64));
    if bytes.len() == N {
        array.copy_from_slice(bytes);
    }
    array
}
