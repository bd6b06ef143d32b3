// Prints the vectors of BLAKE2b, one a line, for comparison with the text in stdout: those of RFC 7693, the lengths around a block's border,
// a prefix and a body, the refusals, and then keys of several lengths and labels.
#![tactic(auto)]

mod keyed;
mod self_test;

ghost use Rattle.std.specs.Prelude.{◌+◌, ◌≤◌};

use answer_types::Refusal;
use gate_printing::{InHex, front, print};

fn main() {
    print("abc 64 ");
    hash_line(b"abc", 64);
    self_test::published("selftest", false);
    lines(0);
    lines(1);
    lines(127);
    lines(128);
    lines(129);
    lines(255);
    lines(256);
    lines(257);
    parts(0, 0);
    parts(1, 0);
    parts(9, 0);
    parts(9, 119);
    parts(9, 120);
    parts(9, 1000);
    parts(65, 63);
    parts(200, 300);
    refusal(0);
    refusal(65);
    self_test::published("selftest whole", true);
    keyed::lines();
    keyed::refusals();
    keyed::labels();
}

// The message of `count` bytes under each output length.
fn lines(count: usize)
    requires { count ≤ 1024 }
{
    let message = filled(count, (count % 256) as u8, 7);
    for output in [1, 20, 32, 63, 64] {
        print(format_args!("{count} {output} "));
        hash_line(&message[0..count], output);
    }
}

// A message of `count` bytes: the first, and each later one `step` more than the one before, modulo 256.
fn filled(count: usize, first: u8, step: u8) -> [u8; 1024]
    requires { count ≤ 1024 }
{
    let mut message = [0u8; 1024];
    let mut next = first;
    for byte in &mut message[0..count] {
        *byte = next;
        next = next.wrapping_add(step);
    }
    message
}

// The hash, and the line's end.
fn hash_line(message: &[u8], output: usize) {
    let hashed = blake2b::hash(output, b"", message);
    print(format_args!("{}\n", front(&hashed.unwrap_or([0u8; 64]), output)));
}

// The hash of a message that is lent as a prefix and a body.
fn parts(prefix: usize, body: usize)
    requires { prefix + body ≤ 1024 }
{
    let end = prefix + body;
    let message = filled(end, (end % 256) as u8, 7);
    let digest = blake2b::hash_parts(b"", &message[0..prefix], &message[prefix..end]);
    print(format_args!("parts {prefix} {body} {}\n", InHex(&digest)));
}

// What an output length that is none is refused with.
fn refusal(output: usize) {
    let hashed = blake2b::hash(output, b"", b"");
    if let Err(refusal) = hashed {
        print(format_args!("refused {output} {}\n", refusal.number));
    }
}
