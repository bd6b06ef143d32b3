// The root hash of a register.
ghost use Rattle.std.specs.Result.{result_unwrap_or};
ghost use Rattle.byte_strings.specs.Lists.{zeros};
ghost use Rattle.answer_types.specs.Meaning.{said};
ghost use Rattle.checks.specs.Lent.{register_of};
ghost use Rattle.writing.specs.Post.{RootPost};

use answer_types::Refusal;

// The root hash that the stored roots of a register give.
pub fn root_hash(
    tree: &[u8],
    signatures: &[u8],
    bitfield: &[u8],
    content: &[u8],
    n: u64,
    s: u64,
    size: u64,
) -> Result<[u8; 32], Refusal>
    ensures { RootPost
        (register_of tree.now signatures.now bitfield.now content.now n s size)
        (said result) (result_unwrap_or result (zeros 32)) }
{
    checks::judge(tree, signatures, bitfield, content, n, s, size)?;
    Ok(file_format::roots::stored_root_hash(tree, n))
}
