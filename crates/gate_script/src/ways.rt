// The quick way, a stroke, and the short way, of each of some numbers, on a register and on a copy.
use super::answers::Shown;
use super::parts;
use super::parts::Register;
use super::reading::Line;
use super::words::Ways;
use gate_printing::print;
use gate_samples::Told;
use number_types::{ByteOffset, ChunkNumber};
use std::fmt::Display;

// A number, and how many from there on.
pub fn by(
    tree: &[u8],
    signatures: &[u8],
    bitfield: &[u8],
    data: &[u8],
    line: Line,
    word: Ways,
    first: Register,
) {
    let x = line.numbers;
    let lent = first.lent;
    let t = parts::of(tree, lent.tree);
    let g = parts::of(signatures, lent.signatures);
    let b = parts::of(bitfield, lent.bitfield);
    let d = parts::of(data, lent.data);
    print(": ");
    for j in 0..x[2].min(64) {
        one(t, g, b, d, word, first.told, x[1].wrapping_add(j));
    }
}

fn one(t: &[u8], g: &[u8], b: &[u8], d: &[u8], word: Ways, told: Told, number: u64) {
    let Told { n, s, size } = told;
    let k = ChunkNumber(number);
    let at = ByteOffset(number);
    match word {
        Ways::Places => both(
            Shown(lookup::place(t, g, b, d, n, s, size, k)),
            Shown(short_lookup::place(t, g, b, d, n, s, size, k)),
        ),
        Ways::Bytes => both(
            Shown(lookup::locate(t, g, b, d, n, s, size, at)),
            Shown(short_lookup::locate(t, g, b, d, n, s, size, at)),
        ),
        Ways::Searches => both(
            Shown(search::search(t, g, b, d, n, s, size, k)),
            Shown(short_lookup::search(t, g, b, d, n, s, size, k)),
        ),
        Ways::CopyPlaces => both(
            Shown(copy_lookup::place(t, b, d, n, size, k)),
            Shown(copy_short_lookup::place(t, b, d, n, size, k)),
        ),
        Ways::CopyBytes => both(
            Shown(copy_lookup::locate(t, b, d, n, size, at)),
            Shown(copy_short_lookup::locate(t, b, d, n, size, at)),
        ),
        Ways::CopySearches => both(
            Shown(copy_roots::search(t, b, d, n, size, k)),
            Shown(copy_short_lookup::search(t, b, d, n, size, k)),
        ),
    }
}

fn both<D: Display + Drop>(quick: D, short: D) {
    print(format_args!("{quick}|{short};"));
}
