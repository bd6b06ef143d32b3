// The calls on two registers: t, g, b and d are the tree, signatures, bitfield and data of the first as they are lent, and n, s and the size z
// are told of it; those of the second have a 2.
use super::answers::Shown;
use super::parts;
use super::parts::Both;
use super::reading::Line;
use super::words::OfTwo;
use compare::compare;
use gate_printing::{InHex, Said, print};
use gate_samples::Told;
use lookup::{Name, read, read_answer};
use number_types::{ChunkNumber, TreeIndex};
use parts_compare::{roots_part, walk_part};

// A read has the metadata register first: behind a 0 that is the first register, which is read; else it is the second, and the first is the
// content register, which is read.
pub fn ordered(line: Line, word: OfTwo, both: Both) -> Both {
    match (word, named(line.numbers[1])) {
        (OfTwo::Get, Name::Content) => both.swapped(),
        _ => both,
    }
}

// Of a comparison in parts the checks of each register, the roots, and a part of the walk; of a read what the call beside it answers, and the bytes.
pub fn by(
    tree: &[u8],
    signatures: &[u8],
    bitfield: &[u8],
    data: &[u8],
    line: Line,
    word: OfTwo,
    both: Both,
) {
    let x = line.numbers;
    let Both { first, second } = both;
    let t = parts::of(tree, first.lent.tree);
    let g = parts::of(signatures, first.lent.signatures);
    let b = parts::of(bitfield, first.lent.bitfield);
    let d = parts::of(data, first.lent.data);
    let Told { n, s, size: z } = first.told;
    let t2 = parts::of(tree, second.lent.tree);
    let g2 = parts::of(signatures, second.lent.signatures);
    let b2 = parts::of(bitfield, second.lent.bitfield);
    let d2 = parts::of(data, second.lent.data);
    let Told {
        n: n2,
        s: s2,
        size: z2,
    } = second.told;
    print(": ");
    match word {
        OfTwo::Compare => print(Shown(compare(t, g, b, d, n, s, z, t2, g2, b2, d2, n2, s2, z2))),
        OfTwo::Cut => {
            held(t, g, b, d, n, s, z);
            held(t2, g2, b2, d2, n2, s2, z2);
            let roots = roots_part(t, g, b, d, n, s, z, t2, g2, b2, d2, n2, s2, z2);
            let from = TreeIndex(x[1]);
            let to = TreeIndex(x[2]);
            let walk = walk_part(t, g, b, d, n, s, z, t2, g2, b2, d2, n2, s2, z2, from, to);
            print(format_args!("{} {}", Shown(roots), Shown(walk)));
        }
        OfTwo::Get => {
            let k = ChunkNumber(x[2]);
            let name = named(x[1]);
            let answer = read_answer(name, t, g, b, d, n, s, z, t2, g2, b2, d2, n2, s2, z2, k);
            let part = read(name, t, g, b, d, n, s, z, t2, g2, b2, d2, n2, s2, z2, k);
            print(format_args!("{}:{}", Said(answer), InHex(part)));
        }
    }
}

fn named(x: u64) -> Name {
    if x == 0 {
        Name::Metadata
    } else {
        Name::Content
    }
}

// The checks of a register for a comparison.
fn held(t: &[u8], g: &[u8], b: &[u8], d: &[u8], n: u64, s: u64, z: u64) {
    print(format_args!("{} ", Said(compare::judge_held(t, g, b, d, n, s, z))));
}
