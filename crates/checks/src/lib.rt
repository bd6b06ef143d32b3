// The checks 2 to 6 of a call on a register: "Checks apply to what the call is given, in this order; images as tree, signatures,
// bitfield, data." They only read, so that a refused call has changed nothing. And what 7 asks of a list of chunks.
#![tactic(auto)]

ghost use Rattle.std.specs.Prelude.{◌≡◌, ◌+◌, ◌≤◌, length};
ghost use Rattle.answer_types.specs.Verdict.{done};
ghost use Rattle.answer_types.specs.Meaning.{said};
ghost use Rattle.checks.specs.Checks.{signed_right, judged, later_checks, register_checks};
ghost use Rattle.checks.specs.Lent.{register_of, long_right, heads_right};
ghost use Rattle.checks.specs.Lengths.{all_short};
ghost use Rattle.checks.specs.Capped.{capped};

use answer_types::Refusal;
use number_types::ByteOffset;

// "3. s is neither n nor n − 1, or is not 0 when n is 0." No sum wraps, whatever n and s are.
fn signed_right(n: u64, s: u64) -> bool
    ensures { result ≡ signed_right n s }
{
    s == n || (s < n && s + 1 == n)
}

// "4. A buffer is shorter than its used size." Inner: n and s are no larger than the checks 2 and 3 let pass.
#[tactic(auto, unfolding(crate::specs::Lent::long_right))]
fn long_right(
    tree: &[u8],
    signatures: &[u8],
    bitfield: &[u8],
    content: &[u8],
    n: u64,
    s: u64,
    size: u64,
) -> bool
    requires { (n ≤ 1048576) × (s ≤ 1048576) }
    ensures { result ≡
        long_right
        (register_of tree.now signatures.now bitfield.now content.now n s size) }
{
    file_format::sizes::used_tree(n) <= tree.len()
        && file_format::sizes::used_signatures(s) <= signatures.len()
        && file_format::sizes::used_bitfield(n) <= bitfield.len()
        && size <= (content.len() as u64)
}

// "5. A header differs from its 32 bytes." Inner: each file has room for its header.
#[tactic(auto, unfolding(crate::specs::Lent::heads_right))]
fn heads_right(tree: &[u8], signatures: &[u8], bitfield: &[u8]) -> bool
    requires { (32 ≤ length tree.now) × (32 ≤ length signatures.now) × (32 ≤ length bitfield.now) }
    ensures { result ≡ heads_right tree.now signatures.now bitfield.now }
{
    file_format::headers::has_header(tree, &file_format::headers::tree_header())
        && file_format::headers::has_header(signatures, &file_format::headers::signatures_header())
        && file_format::headers::has_header(bitfield, &file_format::headers::bitfield_header())
}

// Inner: the checks 3 to 6, of a register that passes 2. An append has a check 2 of its own before them.
#[tactic(auto, using(crate::proofs::Steps::signed_le, crate::proofs::Steps::answered))]
pub fn judge_later(
    tree: &[u8],
    signatures: &[u8],
    bitfield: &[u8],
    content: &[u8],
    n: u64,
    s: u64,
    size: u64,
) -> Result<(), Refusal>
    requires { n ≤ 1048576 }
    ensures { said result ≡
        judged
        (later_checks
        (register_of tree.now signatures.now bitfield.now content.now n s size))
        done }
{
    if !signed_right(n, s) {
        return answer_types::refuse(3);
    }
    if !long_right(tree, signatures, bitfield, content, n, s, size) {
        return answer_types::refuse(4);
    }
    if !heads_right(tree, signatures, bitfield) {
        return answer_types::refuse(5);
    }
    if !file_format::roots::adds_up(tree, n, size) {
        return answer_types::refuse(6);
    }
    Ok(())
}

// The checks 2 to 6: done, or the first number that holds.
#[tactic(auto, using(crate::proofs::Steps::over, crate::proofs::Steps::not_over))]
pub fn judge(
    tree: &[u8],
    signatures: &[u8],
    bitfield: &[u8],
    content: &[u8],
    n: u64,
    s: u64,
    size: u64,
) -> Result<(), Refusal>
    ensures { said result ≡
        judged
        (register_checks
        (register_of tree.now signatures.now bitfield.now content.now n s size))
        done }
{
    if 1048576 < n {
        return answer_types::refuse(2);
    }
    judge_later(tree, signatures, bitfield, content, n, s, size)
}

// Whether no length is above 65,536.
#[tactic(auto, using(crate::proofs::Lengths::none_long, crate::proofs::Lengths::one_long))]
pub fn all_short(lengths: &[u64]) -> bool
    ensures { result ≡ all_short lengths.now }
{
    lengths.iter().all(|length| *length <= 65536)
}

// The end of so many bytes behind a start, at most the largest number that fits.
#[tactic(auto, using(crate::proofs::Capped::capped_min))]
pub fn add_capped(start: ByteOffset, size: u64) -> ByteOffset
    ensures { result.0 ≡ capped (start.0 + size) }
{
    ByteOffset(start.0.saturating_add(size))
}
