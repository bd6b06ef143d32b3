// Partial copies: which of a copy's roots is unknown, and the checks of a call on a copy. They only read, so that a refused call has changed
// nothing.
#![tactic(auto)]

ghost use Rattle.std.specs.Prelude.{◌≡◌, ◌≤◌, length};
ghost use Rattle.answer_types.specs.Verdict.{done};
ghost use Rattle.answer_types.specs.Meaning.{said};
ghost use Rattle.tree_index.specs.Tree.{roots};
ghost use Rattle.bitfield.specs.Known.{stored_known};
ghost use Rattle.checks.specs.Checks.{judged, adds_up};
ghost use Rattle.file_format.specs.Inner.{RootsIn};
ghost use Rattle.audit.specs.BitfieldEntries.{BitsIn};
ghost use Rattle.lookup.specs.Unknown.{first_unknown, first_entry};
ghost use Rattle.copy_checks.specs.Copy.{copy_of};
ghost use Rattle.copy_checks.specs.Least.{lower_of};
ghost use Rattle.copy_checks.specs.Checks.{lent_checks, size_check, copy_judged, partly_judged};
ghost use Rattle.copy_checks.specs.Meaning.{long_right, heads_right};

use answer_types::Refusal;
use number_types::TreeIndex;

// The lower of two.
pub fn lower_of(a: Option<TreeIndex>, b: Option<TreeIndex>) -> Option<TreeIndex>
    ensures { first_entry result ≡ lower_of (first_entry a) (first_entry b) }
{
    match a {
        None => b,
        Some(i) => match b {
            None => Some(i),
            Some(j) => { if i.0 < j.0 { Some(i) } else { Some(j) } }
        },
    }
}

// Inner: the first of the roots of n chunks, from the left, that is not known.
pub fn unknown_root(bitfield: &[u8], n: u64) -> Option<TreeIndex>
    requires { BitsIn bitfield.now n }
    ensures { first_entry result ≡ first_unknown (stored_known bitfield.now) (roots n) }
{
    let count = tree_index::root_count(n);
    let indexes = tree_index::root_indexes(n);
    for &i in &indexes[0..count] {
        if !bitfield::is_known(bitfield, i) {
            return Some(i);
        }
    }
    None
}

// "4. A buffer is shorter than its used size." Inner: n is no larger than check 2 lets pass.
pub fn long_right(tree: &[u8], bitfield: &[u8], content: &[u8], n: u64, size: u64) -> bool
    requires { n ≤ 1048576 }
    ensures { result ≡ long_right (copy_of tree.now bitfield.now content.now n size) }
{
    if tree.len() < file_format::sizes::used_tree(n) {
        return false;
    }
    if bitfield.len() < file_format::sizes::used_bitfield(n) {
        return false;
    }
    size <= (content.len() as u64)
}

// "5. A header differs from its 32 bytes." Inner: each file has room for its header.
fn heads_right(tree: &[u8], bitfield: &[u8]) -> bool
    requires { (32 ≤ length tree.now) × (32 ≤ length bitfield.now) }
    ensures { result ≡ heads_right tree.now bitfield.now }
{
    let first = file_format::headers::tree_header();
    if !file_format::headers::has_header(tree, &first) {
        return false;
    }
    let second = file_format::headers::bitfield_header();
    file_format::headers::has_header(bitfield, &second)
}

// The checks 2, 4 and 5.
fn judge_lent(
    tree: &[u8],
    bitfield: &[u8],
    content: &[u8],
    n: u64,
    size: u64,
) -> Result<(), Refusal>
    ensures { said result ≡ judged (lent_checks (copy_of tree.now bitfield.now content.now n size)) done }
{
    if 1048576 < n {
        return answer_types::refuse(2);
    }
    if !long_right(tree, bitfield, content, n, size) {
        return answer_types::refuse(4);
    }
    if !heads_right(tree, bitfield) {
        return answer_types::refuse(5);
    }
    Ok(())
}

// Inner: number 6, of a copy that passes the checks 2 and 4.
fn judge_size(tree: &[u8], n: u64, size: u64) -> Result<(), Refusal>
    requires { RootsIn tree.now n }
    ensures { said result ≡ judged (size_check (adds_up tree.now n size)) done }
{
    if file_format::roots::adds_up(tree, n, size) {
        return Ok(());
    }
    answer_types::refuse(6)
}

// The checks of a call on a copy but the taking in and the audit: 2, 4, 5, 20 at the first unknown root from the left, 6.
pub fn judge(tree: &[u8], bitfield: &[u8], content: &[u8], n: u64, size: u64) -> Result<(), Refusal>
    ensures { said result ≡ copy_judged (copy_of tree.now bitfield.now content.now n size) done }
{
    judge_lent(tree, bitfield, content, n, size)?;
    match unknown_root(bitfield, n) {
        Some(i) => answer_types::refuse_entry(20, i),
        None => judge_size(tree, n, size),
    }
}

// The checks of the taking in and of the audit: 2, 4, 5, and 6, which is passed over while a root is unknown.
pub fn judge_partly(
    tree: &[u8],
    bitfield: &[u8],
    content: &[u8],
    n: u64,
    size: u64,
) -> Result<(), Refusal>
    ensures { said result ≡ partly_judged (copy_of tree.now bitfield.now content.now n size) done }
{
    judge_lent(tree, bitfield, content, n, size)?;
    match unknown_root(bitfield, n) {
        Some(_) => Ok(()),
        None => judge_size(tree, n, size),
    }
}
