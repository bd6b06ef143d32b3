// Byte slices: parts compared, copied and cleared, and big-endian numbers read and written.
#![tactic(auto)]

ghost use Rattle.std.specs.Prelude.{◌≡◌, ◌+◌, ◌≤◌, length};
ghost use Rattle.byte_strings.specs.Lists.{part, put, zeros, same_list, all_zero};
ghost use Rattle.byte_strings.specs.Numbers.{be, number};

// Whether two slices hold the same bytes.
pub fn same(a: &[u8], b: &[u8]) -> bool
    ensures { result ≡ same_list a.now b.now }
{
    a == b
}

// Whether all bytes of a slice are zero.
pub fn is_zero(s: &[u8]) -> bool
    ensures { result ≡ all_zero s.now }
{
    s.iter().all(|x| *x == 0)
}

// Inner: src into dst at a place where it has room. One by one, which the compiler makes a memcpy of, since it knows of the two that they lie apart; behind
// `copy_from_slice` it doesn't, and then firmware has to provide memmove too.
pub fn copy_to(dst: &mut [u8], at: usize, src: &[u8])
    requires { at + length src.now ≤ length dst.old }
    ensures { dst.new ≡ put dst.old at src.now }
{
    for i in 0..src.len() {
        dst[at + i] = src[i];
    }
}

// Inner: zeros into dst at a place where they have room.
pub fn clear(dst: &mut [u8], at: usize, count: usize)
    requires { at + count ≤ length dst.old }
    ensures { dst.new ≡ put dst.old at (zeros count) }
{
    dst[at..at + count].fill(0);
}

// Inner: the number in the 4 bytes at a place within s. They are named one by one, here and for 8: read through `first_chunk` each number takes five
// instructions more, and a walk over the leaves half as many again.
pub fn read_be32(s: &[u8], at: usize) -> u64
    requires { at + 4 ≤ length s.now }
    ensures { result ≡ number (part s.now at 4) }
{
    u64::from(u32::from_be_bytes([s[at], s[at + 1], s[at + 2], s[at + 3]]))
}

// Inner: the number in the 8 bytes at a place within s.
pub fn read_be64(s: &[u8], at: usize) -> u64
    requires { at + 8 ≤ length s.now }
    ensures { result ≡ number (part s.now at 8) }
{
    u64::from_be_bytes([
        s[at],
        s[at + 1],
        s[at + 2],
        s[at + 3],
        s[at + 4],
        s[at + 5],
        s[at + 6],
        s[at + 7],
    ])
}

// The number x in 8 bytes.
pub fn be64(x: u64) -> [u8; 8]
    ensures { result ≡ be 8 x }
{
    x.to_be_bytes()
}

// The number x in 4 bytes.
pub fn be32(x: u32) -> [u8; 4]
    ensures { result ≡ be 4 x }
{
    x.to_be_bytes()
}
