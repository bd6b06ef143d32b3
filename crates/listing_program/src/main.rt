// The listing of what standard input holds, on standard output.
#![tactic(auto)]

fn main() {
    let mut input = [0u8; 4357];
    let mut out = [0u8; 9371];
    list_on(&mut input, &mut out);
}

// No input of chunks is longer than 4 + 64 * 4 + 4,096 bytes. One byte more than that is read, and the rest would change nothing (the
// library's `Limits`). Every listing has room in 9,371 bytes, so none is refused.
fn list_on(input: &mut [u8], out: &mut [u8]) {
    let count = io::read_full(0, input);
    if let Ok(len) = listing_lines::list(&input[0..count], out) {
        io::write_all(1, &out[0..len]);
    }
}
