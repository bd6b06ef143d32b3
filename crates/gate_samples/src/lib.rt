// Registers for the programs of the gate to work on: chunks and signatures whose bytes depend on the chunk number. Inner.
#![tactic(auto)]

ghost use Rattle.std.specs.Prelude.{◌<◌, ◌≤◌};

// What a caller tells of a register.
#[derive(Clone, Copy, Default)]
pub struct Told {
    pub n: u64,
    pub s: u64,
    pub size: u64,
}

// 64 bytes that depend on k: byte i is k % 251 + 3 i, modulo 256.
pub fn bytes_of(k: u64) -> [u8; 64] {
    let mut bytes = [0u8; 64];
    let mut next = (k % 251) as u8;
    for byte in &mut bytes {
        *byte = next;
        next = next.wrapping_add(3);
    }
    bytes
}

// Inner: a register with chunks appended up to `upto`, each followed by its signature: chunk k is the first k % span bytes of bytes_of(k),
// and its signature is bytes_of(k + 101).
pub fn grow(
    tree: &mut [u8],
    signatures: &mut [u8],
    bitfield: &mut [u8],
    data: &mut [u8],
    told: Told,
    upto: u64,
    span: u64,
) -> Told
    requires { (0 < span) × (span ≤ 64) × (upto ≤ 1048576) }
{
    let mut size = told.size;
    for n in told.n..upto {
        size = step(tree, signatures, bitfield, data, n, size, n % span);
    }
    let n = told.n.max(upto);
    Told { n, s: n, size }
}

// The chunk n, of `count` bytes, appended where `size` bytes are there, and its signature stored; the new size. A size that is told
// wrong is for the calls to refuse, so the sum may wrap.
fn step(
    tree: &mut [u8],
    signatures: &mut [u8],
    bitfield: &mut [u8],
    data: &mut [u8],
    n: u64,
    size: u64,
    count: u64,
) -> u64
    requires { (n < 1048576) × (count ≤ 64) }
{
    let chunk = &bytes_of(n)[0..count as usize];
    let _ = writing::append(tree, signatures, bitfield, data, n, n, size, chunk);
    let after = size.wrapping_add(count);
    let _ = writing::store_signature(
        tree,
        signatures,
        bitfield,
        data,
        n + 1,
        n,
        after,
        &bytes_of(n + 101),
    );
    after
}
