// Varints read at a place of the bytes lent, in their shortest form alone.
ghost use Rattle.std.specs.Prelude.{◌≡◌, ◌≤◌, ◌<◌, length};
ghost use Rattle.record_fields.specs.Varints as varint;
ghost use Rattle.record_fields.specs.Inner.{DigitsRead, joined_of, PutAt, Roomy};

// What was read at a place, and where it ends.
#[derive(Clone, Copy)]
pub struct Read<T> {
    pub value: T,
    pub next: usize,
}

// The number whose lowest seven bits are those of a byte that says that more follow, behind which the rest of the number was read.
#[tactic(auto, using(crate::proofs::Found::joined_is, crate::proofs::Found::joined_zero, crate::proofs::Found::joined_large))]
fn joined(low: u64, high: Option<Read<u64>>) -> Option<Read<u64>>
    requires { low < 128 }
    ensures { result ≡ joined_of low high }
{
    let rest = high?;
    if rest.value == 0 {
        return None;
    }
    if 144115188075855872 <= rest.value {
        return None;
    }
    Some(Read {
        value: low + 128 * rest.value,
        next: rest.next,
    })
}

// Inner: the number that stands in at most k + 1 bytes at a place; none where no number below 2^64 stands there in its shortest form.
pub fn digits(d: &[u8], at: usize, k: usize) -> Option<Read<u64>>
    requires { at ≤ length d.now }
    ensures { DigitsRead d.now k at result }
{
    if d.len() <= at {
        return None;
    }
    let low = u64::from(d[at]);
    if low < 128 {
        return Some(Read {
            value: low,
            next: at + 1,
        });
    }
    if k == 0 {
        return None;
    }
    joined(low - 128, digits(d, at + 1, k - 1))
}

// Inner: a number that at most k + 1 bytes hold, at a place that has room for it; where it ends.
pub fn put_digits(out: &mut [u8], at: usize, x: u64, k: usize) -> usize
    requires { Roomy k x out.old at }
    ensures { PutAt (varint.digits k x) out.old at result out.new }
{
    if x < 128 {
        out[at] = x as u8;
        return at + 1;
    }
    out[at] = (128 + x % 128) as u8;
    put_digits(out, at + 1, x / 128, k - 1)
}
