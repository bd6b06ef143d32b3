// How what a call answers is printed.
use answer_types::Refusal;
use compare::{CompareError, Compared};
use gate_printing::{InHex, Said, front, print};
use lookup::{Located, Placed};
use number_types::ChunkNumber;
use packet_compare::Walked;
use std::fmt;
use std::fmt::Display;

// What a call answers, to be displayed.
#[derive(Clone, Copy)]
pub struct Shown<T>(pub T);

// Whether it is done, and the root hash: zeros after a refusal.
impl Display for Shown<Result<[u8; 32], Refusal>> {
    fn fmt<W: fmt::Write>(&self, f: &mut fmt::Formatter<W>) -> fmt::Result {
        let answer = self.0.map(|_| ());
        let root = self.0.unwrap_or([0u8; 32]);
        write!(f, "{}:{}", Said(answer), InHex(&root))
    }
}

// What a search or a path comes to.
impl Display for Shown<Result<Option<ChunkNumber>, Refusal>> {
    fn fmt<W: fmt::Write>(&self, f: &mut fmt::Formatter<W>) -> fmt::Result {
        match self.0 {
            Err(r) => write!(f, "{}", Said(r)),
            Ok(Some(chunk)) => write!(f, "{}", chunk.0),
            Ok(None) => write!(f, "none"),
        }
    }
}

impl Display for Shown<Result<Placed, Refusal>> {
    fn fmt<W: fmt::Write>(&self, f: &mut fmt::Formatter<W>) -> fmt::Result {
        match self.0 {
            Err(r) => write!(f, "{}", Said(r)),
            Ok(placed) => write!(f, "{} {}", placed.start.0, placed.length),
        }
    }
}

impl Display for Shown<Result<Located, Refusal>> {
    fn fmt<W: fmt::Write>(&self, f: &mut fmt::Formatter<W>) -> fmt::Result {
        match self.0 {
            Err(r) => write!(f, "{}", Said(r)),
            Ok(located) => write!(f, "{} {}", located.chunk.0, located.rest),
        }
    }
}

// The length in a leaf's stored entry or of a packet, or why there is none.
impl Display for Shown<Result<u64, Refusal>> {
    fn fmt<W: fmt::Write>(&self, f: &mut fmt::Formatter<W>) -> fmt::Result {
        match self.0 {
            Err(r) => write!(f, "{}", Said(r)),
            Ok(length) => write!(f, "{length}"),
        }
    }
}

impl Display for Shown<CompareError> {
    fn fmt<W: fmt::Write>(&self, f: &mut fmt::Formatter<W>) -> fmt::Result {
        match self.0 {
            CompareError::First(r) => write!(f, "first {}", Said(r)),
            CompareError::Second(r) => write!(f, "second {}", Said(r)),
        }
    }
}

impl Display for Shown<Result<Compared, CompareError>> {
    fn fmt<W: fmt::Write>(&self, f: &mut fmt::Formatter<W>) -> fmt::Result {
        match self.0 {
            Err(refused) => Shown(refused).fmt(f),
            Ok(Compared::RootsDiffer) => write!(f, "roots differ"),
            Ok(Compared::AtRoots) => write!(f, "collision at the roots"),
            Ok(Compared::AtIndex(index)) => write!(f, "collision tree {}", index.0),
            Ok(Compared::Equal) => write!(f, "equal"),
        }
    }
}

impl Display for Shown<Result<Walked, CompareError>> {
    fn fmt<W: fmt::Write>(&self, f: &mut fmt::Formatter<W>) -> fmt::Result {
        match self.0 {
            Err(refused) => Shown(refused).fmt(f),
            Ok(Walked::SameChunk) => write!(f, "same chunk"),
            Ok(Walked::AtRoots) => write!(f, "collision at the roots"),
            Ok(Walked::AtIndex(index)) => write!(f, "collision tree {}", index.0),
        }
    }
}

// What a call says of a leaf's stored entry, and what the bytes lent for its hash then hold.
pub fn leaf(found: Result<u64, Refusal>, hash: &[u8; 32]) {
    print(format_args!("{}:{}", Shown(found), InHex(hash)));
}

// A packet that was made in the front of a buffer, a sum of the buffer, and the packet's check. Where none was made no byte is checked.
pub fn packet(
    answer: Result<u64, Refusal>,
    out: &[u8],
    n: u64,
    chunk: ChunkNumber,
    root: &[u8; 32],
) {
    print(Shown(answer));
    sum(out);
    print(" ");
    let length = answer.unwrap_or(0);
    check(super::parts::bytes(out, 0, length), n, chunk, root);
}

// What the check of a packet answers, and the chunk's part.
pub fn check(packet: &[u8], n: u64, chunk: ChunkNumber, root: &[u8; 32]) {
    let answer = packet::check_answer(packet, n, chunk, root);
    let part = packet::check(packet, n, chunk, root);
    print(format_args!("{}:{}", Said(answer), InHex(part)));
}

// A sum: the first 8 bytes of the hash.
pub fn sum(part: &[u8]) {
    print(format_args!(" {}", front(&blake2b::hash_parts(b"", b"", part), 8)));
}
