// The calls that write a register, and its root hash.
#![tactic(auto)]

mod appending;
mod root;
mod signing;
mod starting;

pub use appending::append;
pub use root::root_hash;
pub use signing::store_signature;
pub use starting::start;

// For a call that answers as an append would and writes nothing: the checks of an append, and, inner, the parents that it completes.
pub use appending::{Node, above as parent_above, judge as judge_append};

// Inner, for a call that appends several chunks: what one of them does to the tree.
pub use appending::add_leaf;
