// The audit of a register: whether its used bytes are the images of some chunks, held or released, and some signatures.
#![tactic(auto)]

mod bits;
mod tree;

ghost use Rattle.std.specs.Prelude.{◌≡◌, []};
ghost use Rattle.answer_types.specs.Meaning.{said};
ghost use Rattle.blake2b.specs.Hash.{node_hash};
ghost use Rattle.checks.specs.Lent.{register_of};
ghost use Rattle.audit.specs.Audit as spec;
ghost use Rattle.audit.specs.TreeWalk.{FilesIn};

use answer_types::Refusal;
pub use bits::{row_count, wrong_byte, wrong_in_entries};
pub use tree::{
    entry_count, hole_right, leaf_right, parent_right, start_at, start_behind, wrong_between,
};

// Inner: 10 at the lowest wrong tree entry, then 11 at the lowest wrong byte of the bitfield file. It requires what the checks 2 to 6
// give, and looks at no signature.
pub fn images(
    tree: &[u8],
    bitfield: &[u8],
    content: &[u8],
    n: u64,
    size: u64,
) -> Result<(), Refusal>
    requires { FilesIn tree.now bitfield.now content.now n size }
    ensures { said result ≡
        spec.images_verdict node_hash (register_of tree.now [] bitfield.now content.now n 0 size) }
{
    let entry = tree::wrong_entry(tree, bitfield, content, n, size);
    let Ok(()) = entry else {
        return entry;
    };
    bits::wrong_byte(bitfield, n, false)
}

// The checks 2 to 6, then 10 at the lowest wrong tree entry, then 11 at the lowest wrong byte of the bitfield file.
pub fn audit(
    tree: &[u8],
    signatures: &[u8],
    bitfield: &[u8],
    content: &[u8],
    n: u64,
    s: u64,
    size: u64,
) -> Result<(), Refusal>
    ensures { said result ≡
        spec.audit node_hash
        (register_of tree.now signatures.now bitfield.now content.now n s size) }
{
    let checked = checks::judge(tree, signatures, bitfield, content, n, s, size);
    let Ok(()) = checked else {
        return checked;
    };
    images(tree, bitfield, content, n, size)
}
