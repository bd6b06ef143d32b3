// The checks of a list, number by number. They only read, so that a refused call has changed nothing.
ghost use Rattle.std.specs.Prelude.{◌≡◌, ◌+◌, ◌≤◌, ◌<◌, length, eqb};
ghost use Rattle.byte_strings.specs.Lists.{total};
ghost use Rattle.answer_types.specs.Verdict.{done};
ghost use Rattle.answer_types.specs.Meaning.{said};
ghost use Rattle.checks.specs.Checks.{judged};
ghost use Rattle.checks.specs.Lent.{register_of};
ghost use Rattle.append_list.specs.Append.{list_checks, room_checks, list_verdict};
ghost use Rattle.append_list.specs.Inner.{own_verdict};

use answer_types::Refusal;

// Whether the lengths add up to a number, as whole numbers: what is left of it is never less than 0.
fn adds_up(lengths: &[u64], whole: u64) -> bool
    ensures { result ≡ eqb (total lengths.now) whole }
{
    let mut left = whole;
    for &here in lengths {
        if left < here {
            return false;
        }
        left -= here;
    }
    left == 0
}

// The numbers 16 and 7, which look at the list alone.
fn judge_list(lengths: &[u64], bytes: &[u8]) -> Result<(), Refusal>
    ensures { said result ≡ judged (list_checks lengths.now bytes.now) done }
{
    if lengths.is_empty() {
        return answer_types::refuse(16);
    }
    if 256 < lengths.len() {
        return answer_types::refuse(16);
    }
    if !adds_up(lengths, bytes.len() as u64) {
        return answer_types::refuse(16);
    }
    if !checks::all_short(lengths) {
        return answer_types::refuse(7);
    }
    Ok(())
}

// Inner: the numbers 8 and 14, of a register that passes 2 to 6 and a list of k chunks and `whole` bytes that passes 16 and 7.
fn judge_room(
    tree: &[u8],
    signatures: &[u8],
    bitfield: &[u8],
    content: &[u8],
    n: u64,
    s: u64,
    size: u64,
    k: u64,
    whole: usize,
) -> Result<(), Refusal>
    requires { (1 ≤ k) × (n + k ≤ 1048576) × (size ≤ length content.now) }
    ensures { said result ≡
        judged
        (room_checks
        (register_of tree.now signatures.now bitfield.now content.now n s size) k
        whole)
        done }
{
    if s != n {
        return answer_types::refuse(8);
    }
    if tree.len() < file_format::sizes::used_tree(n + k) {
        return answer_types::refuse(14);
    }
    if signatures.len() < file_format::sizes::used_signatures(n + k - 1) {
        return answer_types::refuse(14);
    }
    if bitfield.len() < file_format::sizes::used_bitfield(n + k) {
        return answer_types::refuse(14);
    }
    if content.len() - (size as usize) < whole {
        return answer_types::refuse(14);
    }
    Ok(())
}

// Inner: the numbers behind 6: 16, 7, 8 and 14.
fn judge_own(
    tree: &[u8],
    signatures: &[u8],
    bitfield: &[u8],
    content: &[u8],
    n: u64,
    s: u64,
    size: u64,
    lengths: &[u64],
    bytes: &[u8],
) -> Result<(), Refusal>
    requires { (n + length lengths.now ≤ 1048576) × (size ≤ length content.now) }
    ensures { said result ≡
        own_verdict
        (register_of tree.now signatures.now bitfield.now content.now n s size)
        lengths.now bytes.now }
{
    judge_list(lengths, bytes)?;
    judge_room(
        tree,
        signatures,
        bitfield,
        content,
        n,
        s,
        size,
        lengths.len() as u64,
        bytes.len(),
    )
}

// All checks of a list: "2. .. or an append finds n at 1,048,576", "2 also meets a list that would pass 1,048,576 chunks", then 3 to 6, then
// its own.
pub fn judge(
    tree: &[u8],
    signatures: &[u8],
    bitfield: &[u8],
    content: &[u8],
    n: u64,
    s: u64,
    size: u64,
    lengths: &[u64],
    bytes: &[u8],
) -> Result<(), Refusal>
    ensures { said result ≡
        list_verdict
        (register_of tree.now signatures.now bitfield.now content.now n s size)
        lengths.now bytes.now }
{
    if 1048576 <= n {
        return answer_types::refuse(2);
    }
    if 1048576 - n < (lengths.len() as u64) {
        return answer_types::refuse(2);
    }
    checks::judge_later(tree, signatures, bitfield, content, n, s, size)?;
    judge_own(
        tree, signatures, bitfield, content, n, s, size, lengths, bytes,
    )
}
