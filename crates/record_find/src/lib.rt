// The records of a register's chunks, and the paths in them.
#![tactic(auto)]

mod chunks;
mod finding;

// The functions ending in `_behind` are inner: the records of a copy share them.
pub use chunks::{header_behind, header_of, node_behind, node_of};
pub use finding::{find, find_behind};
