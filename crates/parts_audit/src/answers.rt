// What the answers of two parts say together.
ghost use Rattle.std.specs.Prelude.{◌≡◌};
ghost use Rattle.answer_types.specs.Meaning.{said, spot_of};
ghost use Rattle.parts_audit.specs.Together as spec;

use answer_types::{Place, Refusal};

// A place as a number.
fn place_number(place: Place) -> u64
    ensures { result ≡ spec.place_number (spot_of place) }
{
    match place {
        Place::Nowhere => 0,
        Place::Tree(i) => i.0,
        Place::Bitfield(b) => b.0,
    }
}

// Whether one refusal comes before another: by its number, and where they have one number by its place.
fn comes_before(a: Refusal, b: Refusal) -> bool
    ensures { result ≡ spec.comes_before a.number (spot_of a.place) b.number (spot_of b.place) }
{
    if a.number < b.number {
        return true;
    }
    if a.number != b.number {
        return false;
    }
    let first = a.place;
    let second = b.place;
    place_number(first) < place_number(second)
}

// Of two answers the one that comes before the other; "done" comes last.
pub fn earlier(a: Result<(), Refusal>, b: Result<(), Refusal>) -> Result<(), Refusal>
    ensures { said result ≡ spec.earlier (said a) (said b) }
{
    match a {
        Ok(()) => b,
        Err(x) => match b {
            Ok(()) => Err(x),
            Err(y) => { if comes_before(x, y) { Err(x) } else { Err(y) } }
        },
    }
}
