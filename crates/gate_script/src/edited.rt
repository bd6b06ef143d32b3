// Bytes changed by hand: in a lent part of the first register, or in the array of chunks and packets.
use super::parts::{Array, Lent};
use super::reading::Line;
use super::words::Edit;

pub fn by(
    tree: &mut [u8],
    signatures: &mut [u8],
    bitfield: &mut [u8],
    data: &mut [u8],
    text: &mut [u8],
    line: Line,
    word: Edit,
    lent: Lent,
) {
    let x = line.numbers;
    match Array::from(x[1]) {
        Array::Tree => change(tree, word, x, lent.tree.from),
        Array::Signatures => change(signatures, word, x, lent.signatures.from),
        Array::Bitfield => change(bitfield, word, x, lent.bitfield.from),
        Array::Data => change(data, word, x, lent.data.from),
        Array::Text => change(text, word, x, 0),
    }
}

// The bytes that are changed begin at a number.
fn change(file: &mut [u8], word: Edit, x: [u64; 16], from: u64) {
    let count = match word {
        Edit::Flip => 1,
        Edit::Put => 8,
        Edit::Fill => x[3],
    };
    let start = from.wrapping_add(x[2]);
    let end = start.wrapping_add(count);
    let bytes = super::parts::of_mut(file, super::parts::between(start, end));
    match word {
        Edit::Flip => flip(bytes, (x[3] % 256) as u8),
        Edit::Put => put(bytes, x[3]),
        Edit::Fill => fill(bytes, (x[4] % 256) as u8, (x[5] % 256) as u8),
    }
}

fn flip(bytes: &mut [u8], mask: u8) {
    if let Some(byte) = bytes.first_mut() {
        *byte ^= mask;
    }
}

fn put(bytes: &mut [u8], number: u64) {
    if let Some(eight) = bytes.get_mut(0..8) {
        eight.copy_from_slice(&number.to_be_bytes());
    }
}

// A first byte, and each next one more by a step, modulo 256.
fn fill(bytes: &mut [u8], first: u8, step: u8) {
    let mut next = first;
    for byte in bytes {
        *byte = next;
        next = next.wrapping_add(step);
    }
}
