// The Node, a record of every chunk of a metadata register but the first: read of lent bytes, and written into a lent buffer.
#![tactic(auto)]

mod judging;
mod reading;
mod writers;
mod writing;

pub use reading::{Node, read_node};
pub use writers::{Writer, Writers};
pub use writing::write_node;
