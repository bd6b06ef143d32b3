// Hashes under a key, and labels.
ghost use Rattle.std.specs.Prelude.{◌≤◌};

use crate::filled;
use answer_types::Refusal;
use gate_printing::{InHex, Said, front, print};

// Keys of several lengths.
pub fn lines() {
    key_lines(0);
    key_lines(1);
    key_lines(63);
    key_lines(64);
}

// Messages of several lengths under the key of `kk` bytes.
fn key_lines(kk: usize)
    requires { kk ≤ 64 }
{
    line(kk, 0);
    line(kk, 1);
    line(kk, 127);
    line(kk, 128);
    line(kk, 129);
    line(kk, 255);
    line(kk, 256);
}

// The message of `count` bytes under the key of `kk` bytes, with several output lengths.
fn line(kk: usize, count: usize)
    requires kk_bound { kk ≤ 64 }
    requires count_bound { count ≤ 256 }
{
    print(format_args!("key {kk} message {count}:"));
    for output in [1, 20, 32, 48, 64] {
        digest(kk, count, output);
    }
    print("\n");
}

// A space and the hash with `output` bytes: byte j of the key is 7 j + 1, byte j of the message 13 j + 5, modulo 256.
fn digest(kk: usize, count: usize, output: usize)
    requires kk_bound { kk ≤ 64 }
    requires count_bound { count ≤ 256 }
{
    let key = filled(kk, 1, 7);
    let message = filled(count, 5, 13);
    let hashed = blake2b::hash(output, &key[0..kk], &message[0..count]);
    print(format_args!(" {}", front(&hashed.unwrap_or([0u8; 64]), output)));
}

// Keys that are too long, alone and beside output lengths that are none.
pub fn refusals() {
    refusal("key 65 message 0", 64, 65);
    refusal("output 0 key 65", 0, 65);
    refusal("output 65 key 65", 65, 65);
    refusal("output 65 key 64", 65, 64);
}

// What the empty message is refused with.
fn refusal(name: &str, output: usize, kk: usize)
    requires { kk ≤ 65 }
{
    let key = filled(kk, 1, 7);
    let hashed = blake2b::hash(output, &key[0..kk], b"");
    print(format_args!("{name}: {}\n", Said(hashed.map(|_| ()))));
}

// The labels of one root hash under keys of several lengths.
pub fn labels() {
    label(0);
    label(1);
    label(32);
    label(64);
    label(65);
}

// The label under the key of `kk` bytes, or its refusal. Byte j of the root hash is 3 j + 2.
fn label(kk: usize)
    requires { kk ≤ 65 }
{
    let mut root = [0u8; 32];
    root.copy_from_slice(&filled(32, 2, 3)[0..32]);
    let key = filled(kk, 1, 7);
    let labelled = root_label::label(&root, &key[0..kk]);
    match labelled {
        Ok(bytes) => print(format_args!("label key {kk}: {}\n", InHex(&bytes))),
        Err(refusal) => print(format_args!("label key {kk}: {}\n", Said(refusal))),
    }
}
