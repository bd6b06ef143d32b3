// What C is answered, from what the library's calls answer: three numbers, and further numbers or a hash in what the caller lends,
// which is as it was after a refusal.
#![tactic(auto)]

mod answers;
mod lookups;
mod packets;

pub use answers::{encode, give_digest, give_hash, refused};
pub use lookups::{give_byte, give_part, give_place, give_search};
pub use packets::give_length;
