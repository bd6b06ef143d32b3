// The compression function of BLAKE2b, after RFC 7693, sections 3.1 and 3.2.
#![tactic(auto)]

ghost use Rattle.std.specs.Prelude.{◌≡◌, [], ◌∷◌};
ghost use Rattle.blake2b_compression.specs.Compression.{F, flagged, folded, start};
ghost use Rattle.blake2b_compression.specs.Rows.{vector_of};
ghost use Rattle.blake2b_compression.specs.Words.{block_words, counted};

mod mixing;
mod rounds;

use mixing::{Row, Rows};

#[derive(Clone, Copy)]
pub struct Block {
    pub m0: u64,
    pub m1: u64,
    pub m2: u64,
    pub m3: u64,
    pub m4: u64,
    pub m5: u64,
    pub m6: u64,
    pub m7: u64,
    pub m8: u64,
    pub m9: u64,
    pub m10: u64,
    pub m11: u64,
    pub m12: u64,
    pub m13: u64,
    pub m14: u64,
    pub m15: u64,
}

// The offset counter: the bytes taken so far, as a low and a high word.
#[derive(Clone, Copy)]
pub struct Counter {
    pub low: u64,
    pub high: u64,
}

// The word x, with every bit inverted where the final flag holds.
fn with_flag(x: u64, last: bool) -> u64
    ensures { result ≡ flagged last x }
{
    if last { x ^ 0xffff_ffff_ffff_ffff } else { x }
}

// The working vector that the rounds begin with.
fn start_vector(h: [u64; 8], t: Counter, last: bool) -> Rows
    ensures { vector_of result ≡ start h (counted t) last }
{
    Rows {
        a: Row(h[0], h[1], h[2], h[3]),
        b: Row(h[4], h[5], h[6], h[7]),
        c: Row(
            0x6a09_e667_f3bc_c908,
            0xbb67_ae85_84ca_a73b,
            0x3c6e_f372_fe94_f82b,
            0xa54f_f53a_5f1d_36f1,
        ),
        d: Row(
            0x510e_527f_ade6_82d1 ^ t.low,
            0x9b05_688c_2b3e_6c1f ^ t.high,
            with_flag(0x1f83_d9ab_fb41_bd6b, last),
            0x5be0_cd19_137e_2179,
        ),
    }
}

// Both halves of the working vector put into the state.
fn fold(h: &mut [u64; 8], v: Rows)
    ensures { h.new ≡
        folded h.old (vector_of v) 0 ∷ folded h.old (vector_of v) 1 ∷ folded h.old (vector_of v) 2
        ∷ folded h.old (vector_of v) 3 ∷ folded h.old (vector_of v) 4 ∷ folded h.old (vector_of v) 5
        ∷ folded h.old (vector_of v) 6 ∷ folded h.old (vector_of v) 7 ∷ [] }
{
    *h = [
        h[0] ^ v.a.0 ^ v.c.0,
        h[1] ^ v.a.1 ^ v.c.1,
        h[2] ^ v.a.2 ^ v.c.2,
        h[3] ^ v.a.3 ^ v.c.3,
        h[4] ^ v.b.0 ^ v.d.0,
        h[5] ^ v.b.1 ^ v.d.1,
        h[6] ^ v.b.2 ^ v.d.2,
        h[7] ^ v.b.3 ^ v.d.3,
    ];
}

// F of the standard: the state h after the block m, with t bytes taken so far, and last where m is the last block. The state is changed in
// place: one that is handed over would be copied at each block.
pub fn compress(h: &mut [u64; 8], m: Block, t: Counter, last: bool)
    ensures { h.new ≡ F h.old (block_words m) (counted t) last }
{
    let v = start_vector(*h, t, last);
    let w = rounds::twelve_rounds(v, m);
    fold(h, w);
}
