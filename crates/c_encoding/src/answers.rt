// What C is answered: three numbers.
ghost use Rattle.std.specs.Prelude.{◌≡◌};
ghost use Rattle.std.specs.Result.{result_unwrap_or};
ghost use Rattle.byte_strings.specs.Lists.{zeros};
ghost use Rattle.answer_types.specs.Verdict.{unless_refused};
ghost use Rattle.answer_types.specs.Meaning.{said, refusal_of};
ghost use Rattle.c_encoding.specs.Encoding.{encoded};
ghost use Rattle.c_encoding.specs.Number.{number_of};

use answer_types::{Place, Refusal};

// The three numbers of a refusal: its number; 0 where it has no place, 1 where that is a tree index, and 2 where it is a byte offset in the bitfield
// file; and the place.
pub fn refused(refusal: Refusal) -> [u64; 3]
    ensures { result ≡ encoded (refusal_of refusal) }
{
    let number = refusal.number;
    let place = refusal.place;
    match place {
        Place::Nowhere => [number, 0, 0],
        Place::Tree(index) => [number, 1, index.0],
        Place::Bitfield(offset) => [number, 2, offset.0],
    }
}

// The three numbers of an answer, which are 0 where the call is done.
pub fn encode(answer: Result<(), Refusal>) -> [u64; 3]
    ensures { result ≡ encoded (said answer) }
{
    match answer {
        Ok(()) => [0, 0, 0],
        Err(refusal) => refused(refusal),
    }
}

// The three numbers of an answer, and the hash into `out` where one is given.
pub fn give_hash(given: Result<[u8; 32], Refusal>, out: &mut [u8; 32]) -> [u64; 3]
    ensures answers { result ≡ encoded (said given) }
    ensures gives { out.new ≡ unless_refused (said given) (result_unwrap_or given (zeros 32)) out.old }
{
    match given {
        Ok(hash) => {
            *out = hash;
            encode(Ok(()))
        }
        Err(refusal) => refused(refusal),
    }
}

// The number of an answer whose refusal has no place, and the digest into `out` where one is given.
pub fn give_digest(given: Result<[u8; 64], Refusal>, out: &mut [u8; 64]) -> u64
    ensures answers { result ≡ number_of (said given) }
    ensures gives { out.new ≡ unless_refused (said given) (result_unwrap_or given (zeros 64)) out.old }
{
    match given {
        Ok(digest) => {
            *out = digest;
            0
        }
        Err(refusal) => refusal.number,
    }
}
