// Text and decimal numbers put into a buffer. Every function is inner: the caller sees to the room, and hands the place on.
ghost use Rattle.std.specs.Prelude.{[], ◌∷◌, ◌+◌, ◌%◌, ◌≤◌, ◌<◌, length};
ghost use Rattle.listing_lines.specs.Lines.{digits};
ghost use Rattle.listing_lines.specs.Inner.{Put};

// A text; the place behind it.
pub fn put_text(out: &mut [u8], at: usize, text: &[u8]) -> usize
    requires { at + length text.now ≤ length out.old }
    ensures { Put out.old at (length text.now) text.now result out.new }
{
    byte_strings::copy_to(out, at, text);
    at + text.len()
}

// The last decimal digit of x.
fn put_digit(out: &mut [u8], at: usize, x: u64) -> usize
    requires { at + 1 ≤ length out.old }
    ensures { Put out.old at 1 ((48 + x % 10) ∷ []) result out.new }
{
    let digit = [b'0' + (x % 10) as u8];
    put_text(out, at, &digit)
}

// A number in decimal, of at most k digits. The digits before the last are those of x / 10. Printing through Display is no plainer: `write!` into a
// fixed buffer needs a writer of its own, and a proof of what it has written.
pub fn put_digits(out: &mut [u8], at: usize, x: u64, k: usize) -> usize
    requires { at + k ≤ length out.old }
    ensures { Put out.old at k (digits k x) result out.new }
{
    if k == 0 {
        return at;
    }
    if x < 10 {
        return put_digit(out, at, x);
    }
    let next = put_digits(out, at, x / 10, k - 1);
    put_digit(out, next, x)
}
