// Storing a signature: 64 bytes from a signing device, unread, behind the signatures that are there.
ghost use Rattle.std.specs.Prelude.{◌≡◌, ◌+◌, ◌≤◌};
ghost use Rattle.answer_types.specs.Verdict.{done};
ghost use Rattle.answer_types.specs.Meaning.{said};
ghost use Rattle.checks.specs.Checks.{judged};
ghost use Rattle.checks.specs.Lent.{register_of};
ghost use Rattle.writing.specs.Sign.{own_sign_checks, sign_verdict};
ghost use Rattle.writing.specs.Post.{lent, SignPost};

use answer_types::Refusal;

// Inner: the numbers 8 and 14, of counts that pass 2 and 3.
fn judge_own(signatures: &[u8], n: u64, s: u64) -> Result<(), Refusal>
    requires { (n ≤ 1048576) × (s ≤ n) }
    ensures { said result ≡ judged (own_sign_checks signatures.now n s) done }
{
    if s == n {
        return answer_types::refuse(8);
    }
    if signatures.len() < file_format::sizes::used_signatures(s + 1) {
        return answer_types::refuse(14);
    }
    Ok(())
}

// All checks of a signature that is offered. They only read.
fn judge(
    tree: &[u8],
    signatures: &[u8],
    bitfield: &[u8],
    content: &[u8],
    n: u64,
    s: u64,
    size: u64,
) -> Result<(), Refusal>
    ensures { said result ≡
        sign_verdict
        (register_of tree.now signatures.now bitfield.now content.now n s size) }
{
    checks::judge(tree, signatures, bitfield, content, n, s, size)?;
    judge_own(signatures, n, s)
}

// The signature of the newest chunk, which is owed where s is n - 1.
pub fn store_signature(
    tree: &[u8],
    signatures: &mut [u8],
    bitfield: &[u8],
    content: &[u8],
    n: u64,
    s: u64,
    size: u64,
    signature: &[u8; 64],
) -> Result<(), Refusal>
    ensures { SignPost
        (register_of tree.now signatures.old bitfield.now content.now n s size)
        signature.now (said result)
        (lent tree.now signatures.new bitfield.now content.now) }
{
    judge(tree, signatures, bitfield, content, n, s, size)?;
    let at = file_format::sizes::used_signatures(s);
    byte_strings::copy_to(signatures, at, signature);
    Ok(())
}
