// The comparing walk in parts. They only read.
#![tactic(auto)]

ghost use Rattle.std.specs.Prelude.{◌≡◌};
ghost use Rattle.blake2b.specs.Hash.{node_hash};
ghost use Rattle.checks.specs.Lent.{register_of};
ghost use Rattle.compare.specs.Meaning.{told};
ghost use Rattle.parts_compare.specs.Part.{roots_part, walk_part};

use answer_types::Refusal;
use compare::{CompareError, Compared, Roots};
use number_types::TreeIndex;

// The checks 2 to 6 of both registers, then "roots differ", or a collision at the roots, or "equal" where neither is so.
pub fn roots_part(
    tree: &[u8],
    signatures: &[u8],
    bitfield: &[u8],
    content: &[u8],
    n: u64,
    s: u64,
    size: u64,
    tree2: &[u8],
    signatures2: &[u8],
    bitfield2: &[u8],
    content2: &[u8],
    n2: u64,
    s2: u64,
    size2: u64,
) -> Result<Compared, CompareError>
    ensures { told result ≡
        roots_part
        node_hash
        (register_of tree.now signatures.now bitfield.now content.now n s size)
        (register_of tree2.now signatures2.now bitfield2.now content2.now n2 s2 size2) }
{
    let first = checks::judge(tree, signatures, bitfield, content, n, s, size);
    if let Err(refusal) = first {
        return Err(CompareError::First(refusal));
    }
    let second = checks::judge(tree2, signatures2, bitfield2, content2, n2, s2, size2);
    if let Err(refusal) = second {
        return Err(CompareError::Second(refusal));
    }
    match compare::compare_roots(tree, n, tree2, n2) {
        Roots::Differ => Ok(Compared::RootsDiffer),
        Roots::Collide => Ok(Compared::AtRoots),
        Roots::Same => Ok(Compared::Equal),
    }
}

// The checks 2 to 6 of both registers, then the lowest collision from the tree index `from` on and before `to`, or "equal" where there is none.
pub fn walk_part(
    tree: &[u8],
    signatures: &[u8],
    bitfield: &[u8],
    content: &[u8],
    n: u64,
    s: u64,
    size: u64,
    tree2: &[u8],
    signatures2: &[u8],
    bitfield2: &[u8],
    content2: &[u8],
    n2: u64,
    s2: u64,
    size2: u64,
    from: TreeIndex,
    to: TreeIndex,
) -> Result<Compared, CompareError>
    ensures { told result ≡
        walk_part
        (register_of tree.now signatures.now bitfield.now content.now n s size)
        (register_of tree2.now signatures2.now bitfield2.now content2.now n2 s2 size2)
        from.0
        to.0 }
{
    let first = checks::judge(tree, signatures, bitfield, content, n, s, size);
    if let Err(refusal) = first {
        return Err(CompareError::First(refusal));
    }
    let second = checks::judge(tree2, signatures2, bitfield2, content2, n2, s2, size2);
    if let Err(refusal) = second {
        return Err(CompareError::Second(refusal));
    }
    if n != n2 {
        return Ok(Compared::Equal);
    }
    let end = TreeIndex(parts_audit::lesser(to.0, audit::entry_count(n)));
    let used = size as usize;
    let used2 = size2 as usize;
    Ok(compare::lowest_collision(
        tree,
        &content[0..used],
        tree2,
        &content2[0..used2],
        n,
        from,
        end,
    ))
}
