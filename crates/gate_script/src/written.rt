// The calls that may write, on the first register or copy: t, g, b and d are its tree, signatures, bitfield and data as they are lent. Behind the
// answer stands a sum of each of them.
use super::answers::Shown;
use super::parts::Register;
use super::reading::Line;
use super::words::Write;
use super::{answers, parts};
use answer_types::Refusal;
use gate_printing::{Said, print};
use gate_samples::Told;
use number_types::ChunkNumber;

pub fn by(
    tree: &mut [u8],
    signatures: &mut [u8],
    bitfield: &mut [u8],
    data: &mut [u8],
    text: &[u8],
    line: Line,
    word: Write,
    first: Register,
) {
    let lent = first.lent;
    let t = parts::of_mut(tree, lent.tree);
    let g = parts::of_mut(signatures, lent.signatures);
    let b = parts::of_mut(bitfield, lent.bitfield);
    let d = parts::of_mut(data, lent.data);
    print(": ");
    called(t, g, b, d, text, line.numbers, word, first.told);
    answers::sum(t);
    answers::sum(g);
    answers::sum(b);
    answers::sum(d);
}

// The bytes of a chunk, a list or a packet stand from and to where the first two numbers say.
fn called(
    t: &mut [u8],
    g: &mut [u8],
    b: &mut [u8],
    d: &mut [u8],
    text: &[u8],
    x: [u64; 16],
    word: Write,
    told: Told,
) {
    let Told { n, s, size } = told;
    let lent = parts::bytes(text, x[1], x[2]);
    let chunk = ChunkNumber(x[1]);
    match word {
        Write::Start => print(Said(writing::start(t, g, b, d))),
        Write::Grow => grown(t, g, b, d, told, x[1], x[2]),
        Write::Append => print(Shown(writing::append(t, g, b, d, n, s, size, lent))),
        Write::List => listed(t, g, b, d, lent, told, x),
        Write::Sign => print(Said(signed(t, g, b, d, text, told, x[1]))),
        Write::Release => print(Said(release::release(t, g, b, d, n, s, size, chunk))),
        Write::MakeCopy => print(Said(copy_make::make_copy(t, b, d, n, size))),
        Write::TakeIn => print(Said(taken(t, b, d, text, lent, told, x))),
        Write::ReleaseCopy => print(Said(copy_release::release(t, b, d, n, size, chunk))),
    }
}

// Chunks and signatures of the samples, up to a count.
fn grown(
    t: &mut [u8],
    g: &mut [u8],
    b: &mut [u8],
    d: &mut [u8],
    told: Told,
    count: u64,
    step: u64,
) {
    gate_samples::grow(t, g, b, d, told, count.min(20000), step.clamp(1, 64));
    print("done");
}

// A list: how many chunks, and their lengths.
fn listed(
    t: &mut [u8],
    g: &mut [u8],
    b: &mut [u8],
    d: &mut [u8],
    lent: &[u8],
    told: Told,
    x: [u64; 16],
) {
    let Told { n, s, size } = told;
    let count = x[3].min(257) as usize;
    let lengths = &lengths_in(x)[0..count];
    print(Shown(append_list::append_list(t, g, b, d, n, s, size, lengths, lent)));
}

// The lengths of up to twelve chunks stand in the line; those of more follow from their places and from a number.
fn lengths_in(x: [u64; 16]) -> [u64; 257] {
    let mut lengths = [0u64; 257];
    if 12 < x[3] {
        let mut next = x[4] % 23;
        for length in &mut lengths {
            *length = next;
            next = next.wrapping_add(5) % 23;
        }
    } else {
        lengths[0..12].copy_from_slice(&x[4..16]);
    }
    lengths
}

// A signature: where it lies.
fn signed(
    t: &[u8],
    g: &mut [u8],
    b: &[u8],
    d: &[u8],
    text: &[u8],
    told: Told,
    at: u64,
) -> Result<(), Refusal> {
    let Told { n, s, size } = told;
    writing::store_signature(t, g, b, d, n, s, size, &parts::copied(text, at))
}

// A packet: the chunk number, and where the root hash lies.
fn taken(
    t: &mut [u8],
    b: &mut [u8],
    d: &mut [u8],
    text: &[u8],
    lent: &[u8],
    told: Told,
    x: [u64; 16],
) -> Result<(), Refusal> {
    let root = parts::copied(text, x[4]);
    copy_take_in::take_in(t, b, d, told.n, told.size, lent, ChunkNumber(x[3]), &root)
}
