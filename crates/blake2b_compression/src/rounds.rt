// RFC 7693, section 3.2: the twelve rounds. Each row of the message schedule is a function of its own, and stands in it as fields: a table that is
// read in here would be built at each use. Each is inlined: those of the first two rows, which the last two rounds use again, because they ask
// for it, and the others since they have one call site. A step takes the even places of its half of the row and then the odd ones.
ghost use Rattle.std.specs.Prelude.{◌≡◌};
ghost use Rattle.blake2b_compression.specs.Compression.{round, row, rounds};
ghost use Rattle.blake2b_compression.specs.Rows.{vector_of};
ghost use Rattle.blake2b_compression.specs.Words.{block_words};

use crate::Block;
use crate::mixing::{Row, Rows, column_step, diagonal_step};

#[inline(always)]
fn round_0(v: Rows, m: Block) -> Rows
    ensures { vector_of result ≡ round (row 0) (block_words m) (vector_of v) }
{
    let x = Row(m.m0, m.m2, m.m4, m.m6);
    let y = Row(m.m1, m.m3, m.m5, m.m7);
    let u = column_step(v, x, y);
    let x = Row(m.m8, m.m10, m.m12, m.m14);
    let y = Row(m.m9, m.m11, m.m13, m.m15);
    diagonal_step(u, x, y)
}

#[inline(always)]
fn round_1(v: Rows, m: Block) -> Rows
    ensures { vector_of result ≡ round (row 1) (block_words m) (vector_of v) }
{
    let x = Row(m.m14, m.m4, m.m9, m.m13);
    let y = Row(m.m10, m.m8, m.m15, m.m6);
    let u = column_step(v, x, y);
    let x = Row(m.m1, m.m0, m.m11, m.m5);
    let y = Row(m.m12, m.m2, m.m7, m.m3);
    diagonal_step(u, x, y)
}

fn round_2(v: Rows, m: Block) -> Rows
    ensures { vector_of result ≡ round (row 2) (block_words m) (vector_of v) }
{
    let x = Row(m.m11, m.m12, m.m5, m.m15);
    let y = Row(m.m8, m.m0, m.m2, m.m13);
    let u = column_step(v, x, y);
    let x = Row(m.m10, m.m3, m.m7, m.m9);
    let y = Row(m.m14, m.m6, m.m1, m.m4);
    diagonal_step(u, x, y)
}

fn round_3(v: Rows, m: Block) -> Rows
    ensures { vector_of result ≡ round (row 3) (block_words m) (vector_of v) }
{
    let x = Row(m.m7, m.m3, m.m13, m.m11);
    let y = Row(m.m9, m.m1, m.m12, m.m14);
    let u = column_step(v, x, y);
    let x = Row(m.m2, m.m5, m.m4, m.m15);
    let y = Row(m.m6, m.m10, m.m0, m.m8);
    diagonal_step(u, x, y)
}

fn round_4(v: Rows, m: Block) -> Rows
    ensures { vector_of result ≡ round (row 4) (block_words m) (vector_of v) }
{
    let x = Row(m.m9, m.m5, m.m2, m.m10);
    let y = Row(m.m0, m.m7, m.m4, m.m15);
    let u = column_step(v, x, y);
    let x = Row(m.m14, m.m11, m.m6, m.m3);
    let y = Row(m.m1, m.m12, m.m8, m.m13);
    diagonal_step(u, x, y)
}

fn round_5(v: Rows, m: Block) -> Rows
    ensures { vector_of result ≡ round (row 5) (block_words m) (vector_of v) }
{
    let x = Row(m.m2, m.m6, m.m0, m.m8);
    let y = Row(m.m12, m.m10, m.m11, m.m3);
    let u = column_step(v, x, y);
    let x = Row(m.m4, m.m7, m.m15, m.m1);
    let y = Row(m.m13, m.m5, m.m14, m.m9);
    diagonal_step(u, x, y)
}

fn round_6(v: Rows, m: Block) -> Rows
    ensures { vector_of result ≡ round (row 6) (block_words m) (vector_of v) }
{
    let x = Row(m.m12, m.m1, m.m14, m.m4);
    let y = Row(m.m5, m.m15, m.m13, m.m10);
    let u = column_step(v, x, y);
    let x = Row(m.m0, m.m6, m.m9, m.m8);
    let y = Row(m.m7, m.m3, m.m2, m.m11);
    diagonal_step(u, x, y)
}

fn round_7(v: Rows, m: Block) -> Rows
    ensures { vector_of result ≡ round (row 7) (block_words m) (vector_of v) }
{
    let x = Row(m.m13, m.m7, m.m12, m.m3);
    let y = Row(m.m11, m.m14, m.m1, m.m9);
    let u = column_step(v, x, y);
    let x = Row(m.m5, m.m15, m.m8, m.m2);
    let y = Row(m.m0, m.m4, m.m6, m.m10);
    diagonal_step(u, x, y)
}

fn round_8(v: Rows, m: Block) -> Rows
    ensures { vector_of result ≡ round (row 8) (block_words m) (vector_of v) }
{
    let x = Row(m.m6, m.m14, m.m11, m.m0);
    let y = Row(m.m15, m.m9, m.m3, m.m8);
    let u = column_step(v, x, y);
    let x = Row(m.m12, m.m13, m.m1, m.m10);
    let y = Row(m.m2, m.m7, m.m4, m.m5);
    diagonal_step(u, x, y)
}

fn round_9(v: Rows, m: Block) -> Rows
    ensures { vector_of result ≡ round (row 9) (block_words m) (vector_of v) }
{
    let x = Row(m.m10, m.m8, m.m7, m.m1);
    let y = Row(m.m2, m.m4, m.m6, m.m5);
    let u = column_step(v, x, y);
    let x = Row(m.m15, m.m9, m.m3, m.m13);
    let y = Row(m.m11, m.m14, m.m12, m.m0);
    diagonal_step(u, x, y)
}

// All of them, in order.
pub fn twelve_rounds(v: Rows, m: Block) -> Rows
    ensures { vector_of result ≡ rounds 12 (block_words m) (vector_of v) }
{
    let v = round_0(v, m);
    let v = round_1(v, m);
    let v = round_2(v, m);
    let v = round_3(v, m);
    let v = round_4(v, m);
    let v = round_5(v, m);
    let v = round_6(v, m);
    let v = round_7(v, m);
    let v = round_8(v, m);
    let v = round_9(v, m);
    let v = round_0(v, m);
    round_1(v, m)
}
