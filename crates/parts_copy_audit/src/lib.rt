// The audit of a copy in parts. It only reads.
#![tactic(auto)]

ghost use Rattle.std.specs.Prelude.{◌≡◌};
ghost use Rattle.answer_types.specs.Meaning.{said};
ghost use Rattle.blake2b.specs.Hash.{node_hash};
ghost use Rattle.copy_checks.specs.Copy.{copy_of};
ghost use Rattle.parts_copy_audit.specs.Part.{copy_tree_part, copy_bitfield_part};

use answer_types::Refusal;
use number_types::TreeIndex;

// The checks of a copy's audit, then 10 at the lowest that is found wrong when it comes to the tree entries from `from` on and before `to`. The place may
// lie outside the range, since a descent to a leaf may stop elsewhere.
pub fn tree_part(
    tree: &[u8],
    bitfield: &[u8],
    content: &[u8],
    n: u64,
    size: u64,
    from: TreeIndex,
    to: TreeIndex,
) -> Result<(), Refusal>
    ensures { said result ≡
        copy_tree_part node_hash (copy_of tree.now bitfield.now content.now n size) from.0 to.0 }
{
    let checked = copy_checks::judge_partly(tree, bitfield, content, n, size);
    let Ok(()) = checked else {
        return checked;
    };
    let end = TreeIndex(parts_audit::lesser(to.0, audit::entry_count(n)));
    match copy_audit::wrong_between(tree, bitfield, content, n, size, from, end) {
        Some(i) => answer_types::refuse_entry(10, i),
        None => Ok(()),
    }
}

// The same checks, then 11 at the lowest wrong byte of the bitfield's entries from `from` on and before `to`.
pub fn bitfield_part(
    tree: &[u8],
    bitfield: &[u8],
    content: &[u8],
    n: u64,
    size: u64,
    from: u64,
    to: u64,
) -> Result<(), Refusal>
    ensures { said result ≡ copy_bitfield_part (copy_of tree.now bitfield.now content.now n size) from to }
{
    let checked = copy_checks::judge_partly(tree, bitfield, content, n, size);
    let Ok(()) = checked else {
        return checked;
    };
    let end = parts_audit::lesser(to, audit::row_count(n));
    audit::wrong_in_entries(bitfield, n, true, from, end)
}
