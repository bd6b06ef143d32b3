// Records of chunks, and paths. A step gives how long the images are that are lent, n, s and the data size.
use super::given::{behind, first, number};
use super::show;
use super::show::Shown;
use answer_types::Refusal;
use gate_printing::{Said, print};
use number_types::ChunkNumber;
use record_parts::Field;

// What is asked of a register: for a path, which stands behind the numbers; or for the record of a chunk, whose number comes last.
#[derive(Clone, Copy)]
pub enum Asked {
    Path,
    Record,
}

pub fn ask(
    tree: &[u8],
    signatures: &[u8],
    bitfield: &[u8],
    data: &[u8],
    step: &[u8],
    asked: Asked,
) {
    let t = first(tree, number(step, 0));
    let g = first(signatures, number(step, 1));
    let b = first(bitfield, number(step, 2));
    let d = first(data, number(step, 3));
    let n = number(step, 4);
    let s = number(step, 5);
    let size = number(step, 6);
    match asked {
        Asked::Path => found(record_find::find(t, g, b, d, n, s, size, behind(step, 7))),
        Asked::Record => record(t, g, b, d, n, s, size, ChunkNumber(number(step, 7))),
    }
}

fn found(answer: Result<Option<ChunkNumber>, Refusal>) {
    match answer {
        Err(refusal) => print(Said(refusal)),
        Ok(Some(chunk)) => print(chunk.0),
        Ok(None) => print("none"),
    }
}

fn record(t: &[u8], g: &[u8], b: &[u8], d: &[u8], n: u64, s: u64, size: u64, chunk: ChunkNumber) {
    if chunk.0 == 0 {
        header(t, g, b, d, n, s, size, chunk);
    } else {
        node(t, g, b, d, n, s, size, chunk);
        parts(t, g, b, d, n, s, size, chunk);
    }
}

fn header(t: &[u8], g: &[u8], b: &[u8], d: &[u8], n: u64, s: u64, size: u64, chunk: ChunkNumber) {
    match record_find::header_of(t, g, b, d, n, s, size, chunk) {
        Err(refusal) => print(Said(refusal)),
        Ok(_) => print("content"),
    }
    let content = record_parts::header_content_of(t, g, b, d, n, s, size, chunk);
    print(format_args!(" {}", Shown(content)));
}

fn node(t: &[u8], g: &[u8], b: &[u8], d: &[u8], n: u64, s: u64, size: u64, chunk: ChunkNumber) {
    match record_find::node_of(t, g, b, d, n, s, size, chunk) {
        Err(refusal) => print(Said(refusal)),
        Ok(fields) => show::fields(lookup::read_one(t, g, b, d, n, s, size, chunk), fields),
    }
}

// The parts of the Node, as they are handed back: nothing after a refusal, and of a field that is absent.
fn parts(t: &[u8], g: &[u8], b: &[u8], d: &[u8], n: u64, s: u64, size: u64, chunk: ChunkNumber) {
    print(" parts");
    let fields = [
        Field::Path,
        Field::Trie,
        Field::Key(0),
        Field::Permission(0),
        Field::Key(1),
    ];
    for field in fields {
        let part = record_parts::node_part_of(t, g, b, d, n, s, size, chunk, field);
        print(format_args!(" {}", Shown(part)));
    }
}
