// Prints what jobs will need, for comparison with the text in stdout: lists of 0, 1, 40 and 256 lengths at counts about powers of two, the
// fullest register with an empty list, each refusal, and each two of them at once.
#![tactic(auto)]

ghost use Rattle.std.specs.Prelude.{◌≤◌};

use answer_types::Refusal;
use append_needs::Needed;
use gate_printing::{Said, print};

// About powers of two.
const COUNTS: [u64; 19] = [
    0, 1, 2, 3, 7, 8, 9, 1023, 1024, 1025, 8191, 8192, 8193, 16383, 16384, 65535, 65536, 524287,
    524288,
];

fn main() {
    lists(0);
    lists(1);
    lists(40);
    lists(256);
    all(1048576, 68719476736, 0, 0);
    alone();
    refusals();
    pairs();
}

// So many lengths at each of the counts, where a chunk has 1000 bytes.
fn lists(k: usize)
    requires { k ≤ 256 }
{
    for n in COUNTS {
        row(n, n.wrapping_mul(1000), &lengths_from(n)[0..k]);
    }
}

// Lengths from n on, up to the longest, each 577 above the one before it, modulo 65,537.
fn lengths_from(n: u64) -> [u64; 256] {
    let mut lengths = [0u64; 256];
    let mut next = n % 65537;
    for length in &mut lengths {
        *length = next;
        next = next.wrapping_add(577) % 65537;
    }
    lengths
}

// k lengths that are all the same.
fn all(n: u64, size: u64, k: usize, length: u64)
    requires { k ≤ 257 }
{
    row(n, size, &[length; 257][0..k]);
}

// One length at a time.
fn alone() {
    all(5, 100, 1, 0);
    all(5, 100, 1, 119);
    all(5, 100, 1, 120);
    all(5, 100, 1, 65536);
}

fn refusals() {
    all(1048577, 0, 0, 0);
    all(1048576, 0, 1, 1);
    all(10, 0, 257, 1);
    all(10, 0, 1, 65537);
    all(10, 0, 1, 18446744073709551615);
    all(10, 655361, 1, 1);
    all(0, 1, 0, 0);
}

// Two numbers that hold at once: the first in the order is answered.
fn pairs() {
    all(1048570, 0, 257, 1);
    all(1048576, 0, 1, 65537);
    all(1048577, 18446744073709551615, 0, 0);
    all(10, 0, 257, 65537);
    all(10, 655361, 257, 1);
    row(10, 655361, &[1, 65537]);
}

fn row(n: u64, size: u64, lengths: &[u64]) {
    let k = lengths.len();
    print(format_args!("needs n={n} size={size} k={k}:"));
    answer(append_needs::needs(n, size, lengths));
}

fn answer(needed: Result<Needed, Refusal>) {
    match needed {
        Err(refusal) => print(format_args!(" {}\n", Said(refusal))),
        Ok(r) => {
            print(format_args!(" tree {} signatures {}", r.tree, r.signatures));
            print(format_args!(" bitfield {} data {}", r.bitfield, r.content));
            print(format_args!(" leaves {} parents {}", r.leaves, r.parents));
            print(format_args!(" root {} runs {}\n", r.root, r.runs));
        }
    }
}
