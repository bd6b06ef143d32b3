// RFC 7693, section 3.1: the mixing function G, on four columns of the working vector at once, or on its four diagonals.
ghost use Rattle.std.specs.Prelude.{◌≡◌, ◌+◌, ◌%◌, ◌^◌, ◌<◌};
ghost use Rattle.blake2b_compression.specs.Rows.{vector, vector_of, sums, sums3, xors, rotrs, columns, diagonals};

// Four words, one for each column.
#[derive(Clone, Copy)]
pub struct Row(pub u64, pub u64, pub u64, pub u64);

// The working vector: v[0] to v[3], v[4] to v[7], v[8] to v[11], v[12] to v[15].
#[derive(Clone, Copy)]
pub struct Rows {
    pub a: Row,
    pub b: Row,
    pub c: Row,
    pub d: Row,
}

// a + b + c, modulo 2^64.
fn sum3(a: u64, b: u64, c: u64) -> u64
    ensures { result ≡ (a + b + c) % 2 ^ 64 }
{
    a.wrapping_add(b).wrapping_add(c)
}

// What the statements do with words, done with each word of a row: a + b, a + b + c and (a ^ b) >>> n.
fn wrapping_add(a: Row, b: Row) -> Row
    ensures { result ≡ sums a b }
{
    Row(
        a.0.wrapping_add(b.0),
        a.1.wrapping_add(b.1),
        a.2.wrapping_add(b.2),
        a.3.wrapping_add(b.3),
    )
}

fn wrapping_add3(a: Row, b: Row, c: Row) -> Row
    ensures { result ≡ sums3 a b c }
{
    Row(
        sum3(a.0, b.0, c.0),
        sum3(a.1, b.1, c.1),
        sum3(a.2, b.2, c.2),
        sum3(a.3, b.3, c.3),
    )
}

fn xor_rotate(a: Row, b: Row, n: u32) -> Row
    requires { (0 < n) × (n < 64) }
    ensures { result ≡ rotrs (xors a b) n }
{
    Row(
        (a.0 ^ b.0).rotate_right(n),
        (a.1 ^ b.1).rotate_right(n),
        (a.2 ^ b.2).rotate_right(n),
        (a.3 ^ b.3).rotate_right(n),
    )
}

// G at a, b, c, d with the words x and y, a line for each statement of the standard, for four columns at once.
fn mix(a: Row, b: Row, c: Row, d: Row, x: Row, y: Row) -> Rows
    ensures { vector_of result ≡ columns (vector a b c d) x y }
{
    let a = wrapping_add3(a, b, x);
    let d = xor_rotate(d, a, 32);
    let c = wrapping_add(c, d);
    let b = xor_rotate(b, c, 24);
    let a = wrapping_add3(a, b, y);
    let d = xor_rotate(d, a, 16);
    let c = wrapping_add(c, d);
    let b = xor_rotate(b, c, 63);
    Rows { a, b, c, d }
}

// The first half of a round: the columns.
pub fn column_step(v: Rows, x: Row, y: Row) -> Rows
    ensures { vector_of result ≡ columns (vector_of v) x y }
{
    mix(v.a, v.b, v.c, v.d, x, y)
}

// The second half: the rows b, c, d are turned by one, two, three places, so that the diagonals stand as columns, and turned back.
pub fn diagonal_step(v: Rows, x: Row, y: Row) -> Rows
    ensures { vector_of result ≡ diagonals (vector_of v) x y }
{
    let b = v.b;
    let c = v.c;
    let d = v.d;
    let u = mix(
        v.a,
        Row(b.1, b.2, b.3, b.0),
        Row(c.2, c.3, c.0, c.1),
        Row(d.3, d.0, d.1, d.2),
        x,
        y,
    );
    let a = u.a;
    let b = u.b;
    let c = u.c;
    let d = u.d;
    Rows {
        a,
        b: Row(b.3, b.0, b.1, b.2),
        c: Row(c.2, c.3, c.0, c.1),
        d: Row(d.1, d.2, d.3, d.0),
    }
}
