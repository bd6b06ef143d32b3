// The 256 Index bytes of 1,024 data bytes: the bytes of the data first, and then level by level those that combine two.
ghost use Rattle.std.specs.Prelude.{◌≡◌, ◌+◌, ◌*◌, ◌<◌, ◌≤◌, ◌&&◌, eqb, length};
ghost use Rattle.bitfield.specs.Index.{uniform, tuples, four, combined, index_bytes};
ghost use Rattle.bitfield.specs.Levels.{leaves, level};

// The tuple of two values: 3 where both are ones, 0 where both are zero, else 2.
fn uniform_of(a: u8, b: u8, ones: u8) -> u8
    requires { 0 < ones }
    ensures { (result ≡ uniform (eqb a ones && eqb b ones) (eqb a 0 && eqb b 0)) × (result < 4) }
{
    if a == ones && b == ones {
        3
    } else if a == 0 && b == 0 {
        0
    } else {
        2
    }
}

// Inner: four tuples in a byte, the first highest.
#[tactic(auto, unfolding(crate::specs::Index::four))]
fn four_of(t: u8, u: u8, v: u8, w: u8) -> u8
    requires { (t < 4) × (u < 4) × (v < 4) × (w < 4) }
    ensures { result ≡ four t u v w }
{
    64 * t + 16 * u + 4 * v + w
}

// Two Index bytes combined tuple by tuple at the same position.
#[tactic(auto, using(crate::proofs::Levels::four_cong), unfolding(crate::specs::Index::combined, crate::specs::Index::combine))]
fn combined_of(x: u8, y: u8) -> u8
    ensures { result ≡ combined x y }
{
    four_of(
        uniform_of(x / 64, y / 64, 3),
        uniform_of(x / 16 % 4, y / 16 % 4, 3),
        uniform_of(x / 4 % 4, y / 4 % 4, 3),
        uniform_of(x % 4, y % 4, 3),
    )
}

// The four tuples of the data bytes 8k to 8k + 7.
#[tactic(auto, using(crate::proofs::Levels::four_cong), unfolding(crate::specs::Index::tuples, crate::specs::Index::tuple))]
fn tuples_of(s: &[u8], k: usize) -> u8
    requires { 8 * k + 8 ≤ length s.now }
    ensures { result ≡ tuples s.now k }
{
    let a = 8 * k;
    four_of(
        uniform_of(s[a], s[a + 1], 255),
        uniform_of(s[a + 2], s[a + 3], 255),
        uniform_of(s[a + 4], s[a + 5], 255),
        uniform_of(s[a + 6], s[a + 7], 255),
    )
}

// The even Index bytes, with zeros between them.
#[tactic(auto, using(crate::proofs::Levels::leaves_zero, crate::proofs::Levels::leaves_step, crate::proofs::Levels::leaves_end))]
fn leaves_of(s: &[u8]) -> [u8; 256]
    requires { length s.now ≡ 1024 }
    ensures { result ≡ leaves s.now 128 }
{
    let mut out = [0u8; 256];
    for k in 0..128 {
        out[2 * k] = tuples_of(s, k);
    }
    out
}

// Inner: the bytes of one level, count of them, each from the two that stand half before and half behind it.
#[inline(always)]
#[tactic(auto, using(crate::proofs::Levels::room, crate::proofs::Levels::level_zero, crate::proofs::Levels::level_next))]
fn make_level(out: &mut [u8; 256], half: usize, count: usize)
    requires { (0 < half) × (4 * half * count ≡ 256) × (length out.old ≡ 256) }
    ensures { out.new ≡ level out.old half count }
{
    for k in 0..count {
        let p = 4 * half * k + 2 * half - 1;
        out[p] = combined_of(out[p - half], out[p + half]);
    }
}

// Inner: the same, out of line. The first level has half of the bytes, and is compiled for itself; code for each of the others would be a thousand bytes more.
#[inline(never)]
fn make_higher_level(out: &mut [u8; 256], half: usize, count: usize)
    requires { (0 < half) × (4 * half * count ≡ 256) × (length out.old ≡ 256) }
    ensures { out.new ≡ level out.old half count }
{
    make_level(out, half, count);
}

// Inner: the Index of the data bytes of one entry.
#[tactic(auto, using(crate::proofs::Levels::levels, crate::proofs::Levels::length_leaves, crate::proofs::Levels::length_level))]
pub fn index_of(s: &[u8]) -> [u8; 256]
    requires { length s.now ≡ 1024 }
    ensures { result ≡ index_bytes s.now }
{
    let mut out = leaves_of(s);
    make_level(&mut out, 1, 64);
    make_higher_level(&mut out, 2, 32);
    make_higher_level(&mut out, 4, 16);
    make_higher_level(&mut out, 8, 8);
    make_higher_level(&mut out, 16, 4);
    make_higher_level(&mut out, 32, 2);
    make_higher_level(&mut out, 64, 1);
    out
}
