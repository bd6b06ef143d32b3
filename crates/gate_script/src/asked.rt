// The calls that write nothing, on the first register: t, g, b and d are its tree, signatures, bitfield and data as they are lent.
use super::answers::Shown;
use super::parts::{Array, Register};
use super::reading::Line;
use super::words::Ask;
use super::{answers, parts};
use gate_printing::{InHex, Said, front, print};
use gate_samples::Told;
use number_types::{ByteOffset, ChunkNumber};

pub fn by(
    tree: &[u8],
    signatures: &[u8],
    bitfield: &[u8],
    data: &[u8],
    text: &[u8],
    line: Line,
    word: Ask,
    first: Register,
) {
    let lent = first.lent;
    let t = parts::of(tree, lent.tree);
    let g = parts::of(signatures, lent.signatures);
    let b = parts::of(bitfield, lent.bitfield);
    let d = parts::of(data, lent.data);
    print(": ");
    called(t, g, b, d, text, line.numbers, word, first.told);
}

fn called(
    t: &[u8],
    g: &[u8],
    b: &[u8],
    d: &[u8],
    text: &[u8],
    x: [u64; 16],
    word: Ask,
    told: Told,
) {
    let Told { n, s, size } = told;
    let chunk = ChunkNumber(x[1]);
    let at = ByteOffset(x[1]);
    match word {
        Ask::Hash => hashed(x[1], parts::bytes(text, x[2], x[3])),
        Ask::Show => shown(t, g, b, d, text, x),
        Ask::Audit => print(Said(audit::audit(t, g, b, d, n, s, size))),
        Ask::Cut => super::cuts::of_register(t, g, b, d, told, x),
        Ask::Root => print(Shown(writing::root_hash(t, g, b, d, n, s, size))),
        Ask::Old => print(Shown(prefix_root::prefix_root(t, g, b, d, n, s, size, x[1]))),
        Ask::Preview => previewed(t, g, b, d, told, parts::bytes(text, x[1], x[2])),
        Ask::Entry => entry(t, g, b, d, told, chunk),
        Ask::Search => print(Shown(search::search(t, g, b, d, n, s, size, chunk))),
        Ask::Place => print(Shown(lookup::place(t, g, b, d, n, s, size, chunk))),
        Ask::Byte => print(Shown(lookup::locate(t, g, b, d, n, s, size, at))),
        Ask::Packet => packed(t, g, b, d, told, chunk, x[2]),
    }
}

// The hash with so many bytes.
fn hashed(output: u64, message: &[u8]) {
    let hashed = blake2b::hash(output as usize, b"", message);
    print(front(&hashed.unwrap_or([0u8; 64]), output as usize));
}

// The bytes of a file, or of the text.
fn shown(t: &[u8], g: &[u8], b: &[u8], d: &[u8], text: &[u8], x: [u64; 16]) {
    let array = match Array::from(x[1]) {
        Array::Tree => t,
        Array::Signatures => g,
        Array::Bitfield => b,
        Array::Data => d,
        Array::Text => text,
    };
    print(InHex(parts::bytes(array, x[2], x[3])));
}

// An append that is only previewed.
fn previewed(t: &[u8], g: &[u8], b: &[u8], d: &[u8], told: Told, chunk: &[u8]) {
    let r = append_preview::preview(t, g, b, d, told.n, told.s, told.size, chunk);
    print(Shown(r));
}

// The stored entry of a leaf.
fn entry(t: &[u8], g: &[u8], b: &[u8], d: &[u8], told: Told, chunk: ChunkNumber) {
    let mut hash = [0xeeu8; 32];
    let found = stored_leaf::stored_leaf(t, g, b, d, told.n, told.s, told.size, chunk, &mut hash);
    answers::leaf(found, &hash);
}

// A packet made in a buffer of some bytes that held others before.
fn packed(t: &[u8], g: &[u8], b: &[u8], d: &[u8], told: Told, chunk: ChunkNumber, room: u64) {
    let Told { n, s, size } = told;
    let mut out = [0xeeu8; 1200];
    let lent = parts::of_mut(&mut out, parts::between(0, room));
    let made = packet::make(t, g, b, d, n, s, size, chunk, lent);
    let r = writing::root_hash(t, g, b, d, n, s, size);
    answers::packet(made, &out, n, chunk, &r.unwrap_or([0u8; 32]));
}
