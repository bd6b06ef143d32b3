// Appendix E of RFC 7693: the hash over the hashes of several messages, with several output lengths.
ghost use Rattle.std.specs.Prelude.{◌+◌, ◌*◌, ◌≤◌};

use crate::hash_line;
use gate_printing::print;

// Each message without a key; and then, where the test is whole, with one.
pub fn published(name: &str, whole: bool) {
    print(format_args!("{name} "));
    let mut results = [0u8; 1968];
    let first = messages(&mut results, 0, 20, whole);
    let second = messages(&mut results, first, 32, whole);
    let third = messages(&mut results, second, 48, whole);
    let end = messages(&mut results, third, 64, whole);
    hash_line(&results[0..end], 32);
}

// The results of `output` bytes each, one after the other from `at` on; where they end.
fn messages(results: &mut [u8; 1968], at: usize, output: usize, whole: bool) -> usize
    requires { (at + 12 * output ≤ 1968) × (output ≤ 64) }
    ensures { result ≤ at + 12 * output }
{
    let first = message(results, at, output, 0, whole);
    let second = message(results, first, output, 3, whole);
    let third = message(results, second, output, 128, whole);
    let fourth = message(results, third, output, 129, whole);
    let fifth = message(results, fourth, output, 255, whole);
    message(results, fifth, output, 1024, whole)
}

// The message of `count` bytes without a key, and with one of as many bytes as the output has.
fn message(results: &mut [u8; 1968], at: usize, output: usize, count: usize, whole: bool) -> usize
    requires { (at + 2 * output ≤ 1968) × (output ≤ 64) × (count ≤ 1024) }
    ensures { result ≤ at + 2 * output }
{
    put(results, at, output, count, 0);
    if whole {
        put(results, at + output, output, count, output);
        return at + 2 * output;
    }
    at + output
}

// The hash of the message of `count` bytes under the key of `kk` bytes, put at `at`.
fn put(results: &mut [u8; 1968], at: usize, output: usize, count: usize, kk: usize)
    requires { (at + output ≤ 1968) × (output ≤ 64) × (count ≤ 1024) × (kk ≤ 64) }
{
    let message = generated(count);
    let key = generated(kk);
    let hashed = blake2b::hash(output, &key[0..kk], &message[0..count]);
    results[at..at + output].copy_from_slice(&hashed.unwrap_or([0u8; 64])[0..output]);
}

// The message, or key, of `count` bytes, with that number as the seed.
fn generated(count: usize) -> [u8; 1024]
    requires { count ≤ 1024 }
{
    let mut message = [0u8; 1024];
    let mut a = 0xdead4badu32.wrapping_mul(count as u32);
    let mut b = 1u32;
    for byte in &mut message[0..count] {
        let t = a.wrapping_add(b);
        a = b;
        b = t;
        *byte = (t >> 24) as u8;
    }
    message
}
