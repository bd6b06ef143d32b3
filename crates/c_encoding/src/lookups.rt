// What the lookups, the verified read and the search answer: two numbers, in `out`, which is as it was after a refusal.
ghost use Rattle.lookup.specs.Meaning.{placed_of, located_of, verified_of};
ghost use Rattle.search.specs.Meaning.{searched_of};
ghost use Rattle.c_encoding.specs.Encoding.{Gives, Ordered, as_part, as_found};

use answer_types::Refusal;
use lookup::{Located, Placed, Verified};
use number_types::ChunkNumber;

// What a place lookup found: start and length.
pub fn give_place(found: Result<Placed, Refusal>, out: &mut [u64; 2]) -> [u64; 3]
    ensures { Gives (placed_of found) out.old result out.new }
{
    match found {
        Err(refusal) => super::answers::refused(refusal),
        Ok(placed) => {
            *out = [placed.start.0, placed.length];
            super::answers::encode(Ok(()))
        }
    }
}

// What a byte lookup found: the chunk, and the offset less its start.
pub fn give_byte(found: Result<Located, Refusal>, out: &mut [u64; 2]) -> [u64; 3]
    ensures { Gives (located_of found) out.old result out.new }
{
    match found {
        Err(refusal) => super::answers::refused(refusal),
        Ok(located) => {
            *out = [located.chunk.0, located.rest];
            super::answers::encode(Ok(()))
        }
    }
}

// What a search found: 1 and the chunk, or 0 and 0.
pub fn give_search(found: Result<Option<ChunkNumber>, Refusal>, out: &mut [u64; 2]) -> [u64; 3]
    ensures { Gives (as_found (searched_of found)) out.old result out.new }
{
    match found {
        Err(refusal) => super::answers::refused(refusal),
        Ok(first) => match first {
            Some(chunk) => {
                *out = [1, chunk.0];
                super::answers::encode(Ok(()))
            }
            None => {
                *out = [0, 0];
                super::answers::encode(Ok(()))
            }
        },
    }
}

// What a verified read found: where the part begins, and how many bytes it has. Inner: a part ends where it begins or behind.
pub fn give_part(found: Result<Verified, Refusal>, out: &mut [u64; 2]) -> [u64; 3]
    requires { Ordered (verified_of found) }
    ensures { Gives (as_part (verified_of found)) out.old result out.new }
{
    match found {
        Err(refusal) => super::answers::refused(refusal),
        Ok(part) => {
            *out = [part.start.0, part.end.0 - part.start.0];
            super::answers::encode(Ok(()))
        }
    }
}
