// How a call answers: `Ok` with what it gives, or `Err` with a refusal, its number and its place.
#![tactic(auto)]

ghost use Rattle.std.specs.Prelude.{◌≡◌};
ghost use Rattle.answer_types.specs.Verdict.{none, tree, bitfield, refused};
ghost use Rattle.answer_types.specs.Meaning.{said};

use number_types::{ByteOffset, TreeIndex};

// Where a refusal points: nowhere, at a tree entry, or at a byte of the bitfield file.
#[derive(Clone, Copy)]
pub enum Place {
    Nowhere,
    Tree(TreeIndex),
    Bitfield(ByteOffset),
}

// A refused call: the number of the refusal and its place.
#[derive(Clone, Copy)]
pub struct Refusal {
    pub number: u64,
    pub place: Place,
}

// A refusal that has no place.
pub fn refuse(number: u64) -> Result<(), Refusal>
    ensures { said result ≡ refused number none }
{
    Err(Refusal {
        number,
        place: Place::Nowhere,
    })
}

// A refusal at a tree entry.
pub fn refuse_entry(number: u64, index: TreeIndex) -> Result<(), Refusal>
    ensures { said result ≡ refused number (tree index.0) }
{
    Err(Refusal {
        number,
        place: Place::Tree(index),
    })
}

// A refusal at a byte of the bitfield file.
pub fn refuse_byte(number: u64, offset: ByteOffset) -> Result<(), Refusal>
    ensures { said result ≡ refused number (bitfield offset.0) }
{
    Err(Refusal {
        number,
        place: Place::Bitfield(offset),
    })
}
