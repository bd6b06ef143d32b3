// The comparing walk on two registers that hold all their chunks. It reads the lent bytes and changes nothing.
#![tactic(auto)]

mod messages;

ghost use Rattle.std.specs.Prelude.{◌≡◌, ◌-◌, ◌≤◌, not};
ghost use Rattle.answer_types.specs.Verdict.{done};
ghost use Rattle.answer_types.specs.Meaning.{said};
ghost use Rattle.tree_index.specs.Tree.{entries};
ghost use Rattle.blake2b.specs.Hash.{node_hash};
ghost use Rattle.file_format.specs.Stored.{stored_root_message};
ghost use Rattle.file_format.specs.Inner.{RootsIn};
ghost use Rattle.checks.specs.Lent.{register_of};
ghost use Rattle.audit.specs.Audit.{lowest};
ghost use Rattle.compare.specs.Walk as spec;
ghost use Rattle.compare.specs.Meaning.{compared, told, roots_told};
ghost use Rattle.compare.specs.Inner.{collides_at};

use answer_types::Refusal;
use number_types::{ChunkNumber, TreeIndex};

// Which of two lent to a comparison is refused, and how.
#[derive(Clone, Copy)]
pub enum CompareError {
    First(Refusal),
    Second(Refusal),
}

// What the walk finds: "roots differ", a collision at the roots or at a tree index, or "equal".
#[derive(Clone, Copy)]
pub enum Compared {
    RootsDiffer,
    AtRoots,
    AtIndex(TreeIndex),
    Equal,
}

// What the roots of two registers say: their root hashes differ, or only their root messages do, or neither.
#[derive(Clone, Copy)]
pub enum Roots {
    Differ,
    Collide,
    Same,
}

// Inner: the lowest collision of two registers of n chunks from `from` on and before `end`, found by one walk from the left that carries the start of
// the next leaf of both. It asks for the files of n chunks and not for what an audit finds in them.
pub fn lowest_collision(
    tree: &[u8],
    content: &[u8],
    tree2: &[u8],
    content2: &[u8],
    n: u64,
    from: TreeIndex,
    end: TreeIndex,
) -> Compared
    requires { RootsIn tree.now n × RootsIn tree2.now n × (end.0 ≤ entries n) }
    ensures { compared result ≡
        spec.found
        (lowest
        (λ i. not (collides_at tree.now content.now tree2.now content2.now n i))
        from.0
        (end.0 - from.0)) }
{
    if end.0 <= from.0 {
        return Compared::Equal;
    }
    let mut start = audit::start_at(tree, n, from);
    let mut start2 = audit::start_at(tree2, n, from);
    for index in from.0..end.0 {
        let i = TreeIndex(index);
        if messages::collides_at(tree, content, start, tree2, content2, start2, n, i) {
            return Compared::AtIndex(i);
        }
        start = audit::start_behind(tree, i, start);
        start2 = audit::start_behind(tree2, i, start2);
    }
    Compared::Equal
}

// Inner: what the roots of two registers say.
pub fn compare_roots(tree: &[u8], n: u64, tree2: &[u8], n2: u64) -> Roots
    requires { RootsIn tree.now n × RootsIn tree2.now n2 }
    ensures { roots_told result ≡
        spec.at_top node_hash (stored_root_message tree.now n) (stored_root_message tree2.now n2) spec.equal }
{
    let hash = file_format::roots::stored_root_hash(tree, n);
    let hash2 = file_format::roots::stored_root_hash(tree2, n2);
    if !byte_strings::same(&hash, &hash2) {
        return Roots::Differ;
    }
    if !messages::same_roots(tree, n, tree2, n2) {
        return Roots::Collide;
    }
    Roots::Same
}

// Inner: the walk on two registers that passed their checks: the root hashes first, then the root messages, then index by index.
fn walk(tree: &[u8], content: &[u8], n: u64, tree2: &[u8], content2: &[u8], n2: u64) -> Compared
    requires { RootsIn tree.now n × RootsIn tree2.now n2 }
    ensures { compared result ≡
        spec.walk node_hash (spec.stored_side tree.now content.now n)
        (spec.stored_side tree2.now content2.now n2) n }
{
    match compare_roots(tree, n, tree2, n2) {
        Roots::Differ => Compared::RootsDiffer,
        Roots::Collide => Compared::AtRoots,
        Roots::Same => {
            let end = TreeIndex(audit::entry_count(n));
            lowest_collision(tree, content, tree2, content2, n, TreeIndex(0), end)
        }
    }
}

// The checks of one register that look at no tree entry: 2 to 6, then 18 at the leaf of the lowest chunk that is not held.
pub fn judge_held(
    tree: &[u8],
    signatures: &[u8],
    bitfield: &[u8],
    content: &[u8],
    n: u64,
    s: u64,
    size: u64,
) -> Result<(), Refusal>
    ensures { said result ≡
        spec.held_then
        (register_of tree.now signatures.now bitfield.now content.now n s size)
        done }
{
    let checked = checks::judge(tree, signatures, bitfield, content, n, s, size);
    let Ok(()) = checked else {
        return checked;
    };
    let missing = bitfield::first_missing(bitfield, ChunkNumber(0), n);
    if let Some(c) = missing {
        return answer_types::refuse_entry(18, tree_index::leaf_index(c));
    }
    Ok(())
}

// Inner: the checks of one register: these, then 10 and 11 as in the audit.
fn judge_whole(
    tree: &[u8],
    signatures: &[u8],
    bitfield: &[u8],
    content: &[u8],
    n: u64,
    s: u64,
    size: u64,
) -> Result<(), Refusal>
    ensures { said result ≡
        spec.whole_verdict
        node_hash
        (register_of tree.now signatures.now bitfield.now content.now n s size) }
{
    let held = judge_held(tree, signatures, bitfield, content, n, s, size);
    let Ok(()) = held else {
        return held;
    };
    audit::images(tree, bitfield, content, n, size)
}

// All checks of the first register, then those of the second, then the walk.
pub fn compare(
    tree: &[u8],
    signatures: &[u8],
    bitfield: &[u8],
    content: &[u8],
    n: u64,
    s: u64,
    size: u64,
    tree2: &[u8],
    signatures2: &[u8],
    bitfield2: &[u8],
    content2: &[u8],
    n2: u64,
    s2: u64,
    size2: u64,
) -> Result<Compared, CompareError>
    ensures { told result ≡
        spec.compare
        node_hash
        (register_of tree.now signatures.now bitfield.now content.now n s size)
        (register_of tree2.now signatures2.now bitfield2.now content2.now n2 s2 size2) }
{
    let first = judge_whole(tree, signatures, bitfield, content, n, s, size);
    if let Err(refusal) = first {
        return Err(CompareError::First(refusal));
    }
    let second = judge_whole(tree2, signatures2, bitfield2, content2, n2, s2, size2);
    if let Err(refusal) = second {
        return Err(CompareError::Second(refusal));
    }
    Ok(walk(tree, content, n, tree2, content2, n2))
}
