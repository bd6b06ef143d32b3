// Lookups and verified reads.
#![tactic(auto)]

mod descent;
mod places;
mod reading;

// `Ending`, `Sought`, `from_roots`, `is_known`, `answer_of`, `bytes_of`, and the functions ending in `_behind` and `_placed`, are inner: a copy's
// calls share them.
pub use descent::{Ending, Sought, from_roots, is_known};
pub use places::{
    Located, Placed, held_place, held_place_behind, locate, locate_behind, place, place_behind,
};
pub use reading::{
    Name, Verified, answer_of, bytes_of, read, read_answer, read_one, verify, verify_placed,
};
