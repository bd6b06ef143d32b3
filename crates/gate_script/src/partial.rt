// The calls on a copy that write nothing: t, b and d are its tree, bitfield and data, those of the first register, with n and the size that are told.
use super::answers::Shown;
use super::parts::Register;
use super::reading::Line;
use super::words::AskCopy;
use super::{answers, parts};
use gate_printing::{InHex, Said, print};
use number_types::ChunkNumber;

pub fn by(
    tree: &[u8],
    bitfield: &[u8],
    data: &[u8],
    text: &[u8],
    line: Line,
    word: AskCopy,
    first: Register,
) {
    let x = line.numbers;
    let t = parts::of(tree, first.lent.tree);
    let b = parts::of(bitfield, first.lent.bitfield);
    let d = parts::of(data, first.lent.data);
    let n = first.told.n;
    let size = first.told.size;
    let chunk = ChunkNumber(x[1]);
    print(": ");
    match word {
        AskCopy::Audit => print(Said(copy_audit::audit(t, b, d, n, size))),
        AskCopy::Cut => super::cuts::of_copy(t, b, d, n, size, x),
        AskCopy::Root => print(Shown(copy_roots::root_hash(t, b, d, n, size))),
        AskCopy::Old => print(Shown(copy_roots::prefix_root_hash(t, b, d, n, size, x[1]))),
        AskCopy::Entry => entry(t, b, d, n, size, chunk),
        AskCopy::Get => got(t, b, d, n, size, chunk),
        AskCopy::Packet => packed(t, b, d, n, size, chunk, x[2]),
        AskCopy::Find => {
            let path = parts::bytes(text, x[1], x[2]);
            print(Shown(copy_records::find(t, b, d, n, size, path)));
        }
        AskCopy::Node => record(t, b, d, n, size, chunk),
    }
}

// The stored entry of a leaf.
fn entry(t: &[u8], b: &[u8], d: &[u8], n: u64, size: u64, chunk: ChunkNumber) {
    let mut hash = [0xeeu8; 32];
    let found = copy_stored_leaf::stored_leaf(t, b, d, n, size, chunk, &mut hash);
    answers::leaf(found, &hash);
}

fn got(t: &[u8], b: &[u8], d: &[u8], n: u64, size: u64, chunk: ChunkNumber) {
    let answer = copy_lookup::read_answer(t, b, d, n, size, chunk);
    let part = copy_lookup::read(t, b, d, n, size, chunk);
    print(format_args!("{}:{}", Said(answer), InHex(part)));
}

// A packet made in a buffer of some bytes that held others before.
fn packed(t: &[u8], b: &[u8], d: &[u8], n: u64, size: u64, chunk: ChunkNumber, room: u64) {
    let mut out = [0xeeu8; 1200];
    let lent = parts::of_mut(&mut out, parts::between(0, room));
    let made = copy_packet::make(t, b, d, n, size, chunk, lent);
    let r = copy_roots::root_hash(t, b, d, n, size);
    answers::packet(made, &out, n, chunk, &r.unwrap_or([0u8; 32]));
}

// The record of a chunk, a Header at 0.
fn record(t: &[u8], b: &[u8], d: &[u8], n: u64, size: u64, chunk: ChunkNumber) {
    if chunk.0 == 0 {
        let read = copy_records::header_of(t, b, d, n, size, chunk);
        print(Said(read.map(|_| ())));
    } else {
        let read = copy_records::node_of(t, b, d, n, size, chunk);
        print(Said(read.map(|_| ())));
    }
}
