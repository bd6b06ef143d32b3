// Packets that are lent, with the root hash: n, the chunk number, where the root hash lies, and from and to where the packets lie.
use super::answers::Shown;
use super::reading::Line;
use super::{answers, parts};
use gate_printing::print;
use gate_samples::Told;
use number_types::ChunkNumber;

pub fn checked(text: &[u8], line: Line) {
    let x = line.numbers;
    let root = parts::copied(text, x[3]);
    print(": ");
    answers::check(
        parts::bytes(text, x[4], x[5]),
        x[1],
        ChunkNumber(x[2]),
        &root,
    );
}

pub fn walked(text: &[u8], line: Line) {
    let x = line.numbers;
    let root = parts::copied(text, x[3]);
    let first = parts::bytes(text, x[4], x[5]);
    let second = parts::bytes(text, x[6], x[7]);
    let chunk = ChunkNumber(x[2]);
    let walked = packet_compare::compare_packets(first, second, x[1], chunk, &root);
    print(format_args!(": {}", Shown(walked)));
}

// The packet of a chunk of the second register, from and to where in the text.
pub fn bring(
    tree: &[u8],
    signatures: &[u8],
    bitfield: &[u8],
    data: &[u8],
    text: &mut [u8],
    line: Line,
    second: parts::Register,
) {
    let x = line.numbers;
    let lent = second.lent;
    let t = parts::of(tree, lent.tree);
    let g = parts::of(signatures, lent.signatures);
    let b = parts::of(bitfield, lent.bitfield);
    let d = parts::of(data, lent.data);
    let Told { n, s, size } = second.told;
    let out = parts::of_mut(text, parts::between(x[2], x[3]));
    let made = packet::make(t, g, b, d, n, s, size, ChunkNumber(x[1]), out);
    print(format_args!(": {}", Shown(made)));
}
