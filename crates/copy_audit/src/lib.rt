// The audit of a copy: "lets the tree bit of an entry that is no hole be 0"; an entry that is not known must be zero and its chunk not held, and
// of the known entries each is judged by what else is known. It only reads.
#![tactic(auto)]

mod entries;

ghost use Rattle.std.specs.Prelude.{◌≡◌};
ghost use Rattle.answer_types.specs.Meaning.{said};
ghost use Rattle.blake2b.specs.Hash.{node_hash};
ghost use Rattle.copy_checks.specs.Copy.{copy_of};
ghost use Rattle.copy_audit.specs.Audit.{audit_copy};

use answer_types::Refusal;
pub use entries::wrong_between;

// The checks 2, 4, 5 and 6, which is passed over while a root is unknown, then 10 at the lowest wrong tree entry, then 11 at the lowest wrong byte of
// the bitfield file.
pub fn audit(tree: &[u8], bitfield: &[u8], content: &[u8], n: u64, size: u64) -> Result<(), Refusal>
    ensures { said result ≡ audit_copy node_hash (copy_of tree.now bitfield.now content.now n size) }
{
    copy_checks::judge_partly(tree, bitfield, content, n, size)?;
    match entries::wrong_entry(tree, bitfield, content, n, size) {
        Some(i) => answer_types::refuse_entry(10, i),
        None => audit::wrong_byte(bitfield, n, true),
    }
}
