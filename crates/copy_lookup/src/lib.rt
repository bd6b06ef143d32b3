// The place lookup, the byte lookup and the read on a copy.
#![tactic(auto)]

mod places;
mod reads;

pub use places::{held_place, locate, place};
pub use reads::{read, read_answer, verify};
