// Fields put at a place of a lent buffer. All of these are inner: they require room.
ghost use Rattle.std.proofs.Math.Option.{some};
ghost use Rattle.std.specs.Prelude.{◌+◌, ◌≤◌, ◌<◌, length};
ghost use Rattle.record_fields.specs.Fields.{number_field, part_field};
ghost use Rattle.record_fields.specs.Inner.{number_of, bytes_of, PutAt, BytesRoomy};

use super::rows::Part;

// Inner: the field of number k, a number, at a place; nothing of an absent one. Where it ends.
pub fn put_number(out: &mut [u8], at: usize, k: u8, field: Option<u64>) -> usize
    requires { (k < 16) × (at + 11 ≤ length out.old) }
    ensures { PutAt (number_field k (number_of field)) out.old at result out.new }
{
    match field {
        None => at,
        Some(x) => {
            out[at] = 8 * k;
            super::varints::put_digits(out, at + 1, x, 9)
        }
    }
}

// Inner: the field of number k, a part that is these bytes, at a place. Where it ends.
pub fn put_part(out: &mut [u8], at: usize, k: u8, bytes: &[u8]) -> usize
    requires { (k < 16) × (at + 11 + length bytes.now ≤ length out.old) }
    ensures { PutAt (part_field k (some bytes.now)) out.old at result out.new }
{
    out[at] = 8 * k + 2;
    let next = super::varints::put_digits(out, at + 1, bytes.len() as u64, 9);
    byte_strings::copy_to(out, next, bytes);
    next + bytes.len()
}

// Inner: the field of number k, a part of d, at a place; nothing of an absent one. Where it ends.
pub fn put_bytes(out: &mut [u8], at: usize, k: u8, d: &[u8], field: Option<Part>) -> usize
    requires { BytesRoomy d.now field k out.old at }
    ensures { PutAt (part_field k (bytes_of d.now field)) out.old at result out.new }
{
    match field {
        None => at,
        Some(part) => {
            let from = part.at;
            let to = from + part.len;
            put_part(out, at, k, &d[from..to])
        }
    }
}
