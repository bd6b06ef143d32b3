// "Append a list of chunks: tree, bitfield and data become what single appends would leave, and one root hash is answered." The list is lent
// as its lengths and one run of bytes. All checks come first, so the list is stored wholly or left out.
#![tactic(auto)]

mod judging;
mod storing;

ghost use Rattle.std.specs.Result.{result_unwrap_or};
ghost use Rattle.byte_strings.specs.Lists.{zeros};
ghost use Rattle.answer_types.specs.Meaning.{said};
ghost use Rattle.checks.specs.Lent.{register_of};
ghost use Rattle.writing.specs.Post.{lent};
ghost use Rattle.append_list.specs.Post.{ListPost};

use answer_types::Refusal;

// All chunks of a list, which are then owed one signature: the last one's. The signatures of the others are 64 zero bytes each.
pub fn append_list(
    tree: &mut [u8],
    signatures: &mut [u8],
    bitfield: &mut [u8],
    content: &mut [u8],
    n: u64,
    s: u64,
    size: u64,
    lengths: &[u64],
    bytes: &[u8],
) -> Result<[u8; 32], Refusal>
    ensures { ListPost
        (register_of tree.old signatures.old bitfield.old content.old n s size)
        lengths.now bytes.now (said result) (result_unwrap_or result (zeros 32))
        (lent tree.new signatures.new bitfield.new content.new) }
{
    judging::judge(
        tree, signatures, bitfield, content, n, s, size, lengths, bytes,
    )?;
    Ok(storing::store(tree, signatures, bitfield, content, n, size, lengths, bytes))
}
