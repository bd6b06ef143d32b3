// The records of a copy's chunks, the paths in them, and the parts of a record as parts of the bytes lent.
#![tactic(auto)]

mod chunks;
mod finding;
mod parts;

pub use chunks::{header_of, node_of};
pub use finding::find;
pub use parts::{header_content_of, node_part_of};
