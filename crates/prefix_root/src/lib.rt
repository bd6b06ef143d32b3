// "Makers keep printed root hashes from earlier years. For each m up to n, give the root hash of the first m chunks from the stored entries,
// without an audit". All four images are lent to be read; of the tree entries only the roots of n, for the checks, and those of m are read.
#![tactic(auto)]

ghost use Rattle.std.specs.Result.{result_unwrap_or};
ghost use Rattle.byte_strings.specs.Lists.{zeros};
ghost use Rattle.std.specs.Prelude.{◌≡◌};
ghost use Rattle.answer_types.specs.Verdict.{done};
ghost use Rattle.answer_types.specs.Meaning.{said};
ghost use Rattle.file_format.specs.Inner.{RootsIn};
ghost use Rattle.checks.specs.Lent.{register_of};
ghost use Rattle.prefix_root.specs.PrefixRoot.{own_verdict, prefix_verdict, RootedPost, PrefixRootPost};

use answer_types::Refusal;

// "9 is given for m above n".
pub fn up_to(n: u64, m: u64) -> Result<(), Refusal>
    ensures { said result ≡ own_verdict n m }
{
    if n < m {
        return answer_types::refuse(9);
    }
    Ok(())
}

// The checks 2 to 6, and then 9.
fn judge(
    tree: &[u8],
    signatures: &[u8],
    bitfield: &[u8],
    content: &[u8],
    n: u64,
    s: u64,
    size: u64,
    m: u64,
) -> Result<(), Refusal>
    ensures { said result ≡
        prefix_verdict
        (register_of tree.now signatures.now bitfield.now content.now n s size)
        m }
{
    checks::judge(tree, signatures, bitfield, content, n, s, size)?;
    up_to(n, m)
}

// Inner: behind an answer, the root hash that the stored roots of the first m chunks give.
pub fn rooted(found: Result<(), Refusal>, tree: &[u8], m: u64) -> Result<[u8; 32], Refusal>
    requires { said found ≡ done → RootsIn tree.now m }
    ensures { RootedPost (said found) tree.now m (said result) (result_unwrap_or result (zeros 32)) }
{
    found?;
    Ok(file_format::roots::stored_root_hash(tree, m))
}

// The root hash of the first m chunks, from the stored entries.
pub fn prefix_root(
    tree: &[u8],
    signatures: &[u8],
    bitfield: &[u8],
    content: &[u8],
    n: u64,
    s: u64,
    size: u64,
    m: u64,
) -> Result<[u8; 32], Refusal>
    ensures { PrefixRootPost
        (register_of tree.now signatures.now bitfield.now content.now n s size)
        m (said result) (result_unwrap_or result (zeros 32)) }
{
    let found = judge(tree, signatures, bitfield, content, n, s, size, m);
    rooted(found, tree, m)
}
