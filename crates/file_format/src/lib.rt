// The files of a register: headers, used sizes, tree entries, the hashes of nodes and the stored roots.
#![tactic(auto)]

pub mod entries;
pub mod hashes;
pub mod headers;
pub mod roots;
pub mod sizes;
