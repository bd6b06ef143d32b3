// Fields read at a place of the bytes lent: each is there, absent, or badly written.
ghost use Rattle.std.specs.Prelude.{◌≤◌, ◌<◌, length};
ghost use Rattle.record_fields.specs.Inner.{NumberRead, BytesRead};

use super::varints::Read;

// A part of the bytes lent: where it begins and how long it is.
#[derive(Clone, Copy)]
pub struct Part {
    pub at: usize,
    pub len: usize,
}

// Inner: the field of number k, a number of at most `most`, at a place within d: none where it is badly written, and a field that is none where it
// is absent, which ends where it begins.
pub fn number_row(d: &[u8], at: usize, k: u8, most: u64) -> Option<Read<Option<u64>>>
    requires { (at ≤ length d.now) × (k < 16) }
    ensures { NumberRead d.now at k most result }
{
    if d.len() <= at {
        return Some(Read {
            value: None,
            next: at,
        });
    }
    if d[at] != 8 * k {
        return Some(Read {
            value: None,
            next: at,
        });
    }
    let x = super::varints::digits(d, at + 1, 9)?;
    if most < x.value {
        return None;
    }
    Some(Read {
        value: Some(x.value),
        next: x.next,
    })
}

// Inner: the field of number k, a part of at most `longest` bytes, at a place within d: none and absent as a number's.
pub fn bytes_row(d: &[u8], at: usize, k: u8, longest: usize) -> Option<Read<Option<Part>>>
    requires { (at ≤ length d.now) × (k < 16) }
    ensures { BytesRead d.now at k longest result }
{
    if d.len() <= at {
        return Some(Read {
            value: None,
            next: at,
        });
    }
    if d[at] != 8 * k + 2 {
        return Some(Read {
            value: None,
            next: at,
        });
    }
    let x = super::varints::digits(d, at + 1, 9)?;
    let len = x.value as usize;
    if longest < len {
        return None;
    }
    if d.len() - x.next < len {
        return None;
    }
    Some(Read {
        value: Some(Part { at: x.next, len }),
        next: x.next + len,
    })
}
