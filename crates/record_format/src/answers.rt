// What the calls on records answer: a refusal, or what they give.
ghost use Rattle.std.specs.Prelude.{◌≡◌};
ghost use Rattle.answer_types.specs.Verdict.{none, refused};
ghost use Rattle.answer_types.specs.Meaning.{refusal_of};
ghost use Rattle.record_format.specs.Post.{GivenAs};

use answer_types::{Place, Refusal};

// A refusal that has no place.
pub fn refusal(number: u64) -> Refusal
    ensures { refusal_of result ≡ refused number none }
{
    Refusal {
        number,
        place: Place::Nowhere,
    }
}

// Bytes at the front of the buffer, the rest as it was, and how many they are; or number 14.
pub fn give(bytes: &[u8], out: &mut [u8]) -> Result<u64, Refusal>
    ensures { GivenAs bytes.now out.old result out.new }
{
    if out.len() < bytes.len() {
        return Err(refusal(14));
    }
    byte_strings::copy_to(out, 0, bytes);
    Ok(bytes.len() as u64)
}
