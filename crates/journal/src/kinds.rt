// The kinds of ranges.
ghost use Rattle.std.specs.Prelude.{◌≡◌};
ghost use Rattle.journal.specs.Kinds.{number_of, Decodes};

use super::JournalError;

// What a journal has of a range's bytes.
#[derive(Clone, Copy, Debug, PartialEq, Eq)]
pub enum Kind {
    // The old bytes and the new ones.
    Replaced,
    // The new bytes alone.
    Fresh,
    // None: the new bytes are zeros.
    Blank,
    // The bytes that stay.
    Witness,
}

// The kind of a number in a journal.
impl TryFrom<u64> for Kind {
    type Error = JournalError;

    ghost try_from_gives = { Decodes };

    fn try_from(number: u64) -> Result<Self, JournalError> {
        match number {
            1 => Ok(Kind::Replaced),
            2 => Ok(Kind::Fresh),
            3 => Ok(Kind::Blank),
            4 => Ok(Kind::Witness),
            _ => Err(JournalError::Unfit),
        }
    }
}

// The number of a kind in a journal.
impl From<Kind> for u8 {
    ghost from_gives = { λ kind number. number ≡ number_of kind };

    fn from(kind: Kind) -> u8 {
        match kind {
            Kind::Replaced => 1,
            Kind::Fresh => 2,
            Kind::Blank => 3,
            Kind::Witness => 4,
        }
    }
}
