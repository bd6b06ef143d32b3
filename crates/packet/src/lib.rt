// Packets: made from a register, and checked against a root hash.
#![tactic(auto)]

mod checking;
mod making;
mod path;

pub use checking::{
    Checked, Node, add_lengths, check, check_answer, check_hashing, entry_node, leaf_node,
    put_entry, step_up, unhashed,
};
pub use making::{make, make_behind};
pub use path::{other_count, other_indexes, root_place, sibling_count, sibling_indexes};
