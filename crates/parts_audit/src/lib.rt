// The audit of a register in parts: each makes the audit's checks and judges a range of tree entries, or of the bitfield's entries, on its own. It only
// reads, so that parts may run at the same time, in any order, and one of them again.
#![tactic(auto)]

mod answers;
mod ranges;

ghost use Rattle.std.specs.Prelude.{◌≡◌};
ghost use Rattle.answer_types.specs.Meaning.{said};
ghost use Rattle.blake2b.specs.Hash.{node_hash};
ghost use Rattle.checks.specs.Lent.{register_of};
ghost use Rattle.parts_audit.specs.Part.{tree_part, bitfield_part};

use answer_types::Refusal;
pub use answers::earlier;
use number_types::TreeIndex;
pub use ranges::lesser;

// The checks 2 to 6, then 10 at the lowest wrong one of the tree entries from `from` on and before `to`. It finds the start of its first leaf itself.
pub fn tree_part(
    tree: &[u8],
    signatures: &[u8],
    bitfield: &[u8],
    content: &[u8],
    n: u64,
    s: u64,
    size: u64,
    from: TreeIndex,
    to: TreeIndex,
) -> Result<(), Refusal>
    ensures { said result ≡
        tree_part node_hash
        (register_of tree.now signatures.now bitfield.now content.now n s size)
        from.0
        to.0 }
{
    let checked = checks::judge(tree, signatures, bitfield, content, n, s, size);
    let Ok(()) = checked else {
        return checked;
    };
    let end = TreeIndex(lesser(to.0, audit::entry_count(n)));
    audit::wrong_between(tree, bitfield, content, n, size, from, end)
}

// The checks 2 to 6, then 11 at the lowest wrong byte of the bitfield's entries from `from` on and before `to`.
pub fn bitfield_part(
    tree: &[u8],
    signatures: &[u8],
    bitfield: &[u8],
    content: &[u8],
    n: u64,
    s: u64,
    size: u64,
    from: u64,
    to: u64,
) -> Result<(), Refusal>
    ensures { said result ≡
        bitfield_part
        (register_of tree.now signatures.now bitfield.now content.now n s size)
        from
        to }
{
    let checked = checks::judge(tree, signatures, bitfield, content, n, s, size);
    let Ok(()) = checked else {
        return checked;
    };
    let end = lesser(to, audit::row_count(n));
    audit::wrong_in_entries(bitfield, n, false, from, end)
}
