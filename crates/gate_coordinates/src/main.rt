// Prints what grouping and ungrouping answer and leave in the buffer, by its first bytes and its hash, for comparison with the text in
// stdout; and whether each undoes the other.
#![tactic(auto)]

use answer_types::Refusal;
use coordinates::{group, ungroup};
use gate_printing::{InHex, Said, front, print};

fn main() {
    let bytes = sequence();
    short_lengths(&bytes);
    borders(&bytes);
}

// The highest byte of each number of a sequence whose steps grow by one number, modulo 2^32.
fn sequence() -> [u8; 65537] {
    let mut bytes = [0u8; 65537];
    let mut x: u32 = 1;
    let mut step: u32 = 1;
    for byte in &mut bytes {
        *byte = (x >> 24) as u8;
        x = x.wrapping_add(step);
        step = step.wrapping_add(2654435769);
    }
    bytes
}

// Lengths 0 to 17: with and without words, and with all counts of remaining bytes.
fn short_lengths(bytes: &[u8]) {
    for count in 0..=17 {
        row(bytes, count, 65540);
    }
}

// The longest, and one byte more; then no room, just enough, and both refusals at once.
fn borders(bytes: &[u8]) {
    row(bytes, 65533, 65540);
    row(bytes, 65534, 65540);
    row(bytes, 65535, 65540);
    row(bytes, 65536, 65540);
    row(bytes, 65537, 65540);
    row(bytes, 0, 0);
    row(bytes, 11, 11);
    row(bytes, 11, 10);
    row(bytes, 11, 0);
    row(bytes, 65536, 65536);
    row(bytes, 65536, 65535);
    row(bytes, 65537, 65536);
    row(bytes, 65537, 0);
}

// Both calls on the first `count` bytes, with so much room.
fn row(bytes: &[u8], count: usize, room: usize) {
    if let Some(lent) = bytes.get(0..count) {
        call_line("group", group, lent, room);
        call_line("ungroup", ungroup, lent, room);
        if count <= room {
            there_and_back("group, ungroup", group, ungroup, lent);
            there_and_back("ungroup, group", ungroup, group, lent);
        }
    }
}

fn call_line<F: Fn(&[u8], &mut [u8]) -> Result<(), Refusal>>(
    name: &str,
    call: F,
    bytes: &[u8],
    room: usize,
)
    requires { F.IsAlwaysCallable call }
{
    let mut out = [238u8; 65540];
    let count = bytes.len();
    if let Some(lent) = out.get_mut(0..room) {
        let answer = call(bytes, lent);
        print(format_args!("{name} {count} {room} {}", Said(answer)));
        left(&out);
    }
}

// The first bytes of a buffer and the hash of it all.
fn left(out: &[u8]) {
    let hash = blake2b::hash_parts(b"", b"", out);
    print(format_args!(" {} {}\n", front(out, 20), InHex(&hash)));
}

// Whether the bytes come back.
fn there_and_back<
    F: Fn(&[u8], &mut [u8]) -> Result<(), Refusal>,
    G: Fn(&[u8], &mut [u8]) -> Result<(), Refusal>,
>(name: &str, there: F, back: G, bytes: &[u8])
    requires there_callable { F.IsAlwaysCallable there }
    requires back_callable { G.IsAlwaysCallable back }
{
    let mut out = [238u8; 65540];
    let mut returned = [238u8; 65540];
    print(format_args!("{name} {}", Said(there(bytes, &mut out))));
    if let Some(made) = out.get(0..bytes.len()) {
        print(format_args!(" {}", Said(back(made, &mut returned))));
        if returned.starts_with(bytes) {
            print(" the same\n");
        } else {
            print(" others\n");
        }
    }
}
