// Parts of audits and of the comparing walk, for threads and for going on later. All of them write nothing but their answer.
// Each is written out, a copy's beside a register's: C calls it by a name and parameters of its own, and its body is one call and the encoding they share.
ghost use Rattle.std.specs.Prelude.{◌≡◌};
ghost use Rattle.answer_types.specs.Verdict.{done};
ghost use Rattle.blake2b.specs.Hash.{node_hash};
ghost use Rattle.checks.specs.Lent.{register_of};
ghost use Rattle.compare.specs.Walk.{held_then};
ghost use Rattle.copy_checks.specs.Copy.{copy_of};
ghost use Rattle.parts_audit.specs.Part.{tree_part, bitfield_part};
ghost use Rattle.parts_copy_audit.specs.Part.{copy_tree_part, copy_bitfield_part};
ghost use Rattle.parts_compare.specs.Part.{roots_part, walk_part};
ghost use Rattle.c_encoding.specs.Encoding.{encoded};
ghost use Rattle.c_api.specs.Encoding.{encoded_comparison};

use number_types::TreeIndex;

// The audit's checks, then the tree entries from `from` on and before `to`.
#[unsafe(no_mangle)]
pub extern "C" fn sleep_flat_audit_tree_part(
    tree: &[u8],
    signatures: &[u8],
    bitfield: &[u8],
    content: &[u8],
    n: u64,
    s: u64,
    size: u64,
    from: u64,
    to: u64,
    answer: &mut [u64; 3],
)
    ensures { answer.new ≡
        encoded (tree_part node_hash
        (register_of tree.now signatures.now bitfield.now content.now n s size) from to) }
{
    let said = parts_audit::tree_part(
        tree,
        signatures,
        bitfield,
        content,
        n,
        s,
        size,
        TreeIndex(from),
        TreeIndex(to),
    );
    *answer = c_encoding::encode(said);
}

// The audit's checks, then the bitfield's entries from `from` on and before `to`.
#[unsafe(no_mangle)]
pub extern "C" fn sleep_flat_audit_bitfield_part(
    tree: &[u8],
    signatures: &[u8],
    bitfield: &[u8],
    content: &[u8],
    n: u64,
    s: u64,
    size: u64,
    from: u64,
    to: u64,
    answer: &mut [u64; 3],
)
    ensures { answer.new ≡
        encoded (bitfield_part
        (register_of tree.now signatures.now bitfield.now content.now n s size) from to) }
{
    let said = parts_audit::bitfield_part(
        tree, signatures, bitfield, content, n, s, size, from, to,
    );
    *answer = c_encoding::encode(said);
}

// The checks of a copy's audit, then the tree entries from `from` on and before `to`.
#[unsafe(no_mangle)]
pub extern "C" fn sleep_flat_copy_audit_tree_part(
    tree: &[u8],
    bitfield: &[u8],
    content: &[u8],
    n: u64,
    size: u64,
    from: u64,
    to: u64,
    answer: &mut [u64; 3],
)
    ensures { answer.new ≡
        encoded (copy_tree_part node_hash
        (copy_of tree.now bitfield.now content.now n size) from to) }
{
    let said = parts_copy_audit::tree_part(
        tree,
        bitfield,
        content,
        n,
        size,
        TreeIndex(from),
        TreeIndex(to),
    );
    *answer = c_encoding::encode(said);
}

// The checks of a copy's audit, then the bitfield's entries from `from` on and before `to`.
#[unsafe(no_mangle)]
pub extern "C" fn sleep_flat_copy_audit_bitfield_part(
    tree: &[u8],
    bitfield: &[u8],
    content: &[u8],
    n: u64,
    size: u64,
    from: u64,
    to: u64,
    answer: &mut [u64; 3],
)
    ensures { answer.new ≡
        encoded (copy_bitfield_part
        (copy_of tree.now bitfield.now content.now n size) from to) }
{
    let said = parts_copy_audit::bitfield_part(tree, bitfield, content, n, size, from, to);
    *answer = c_encoding::encode(said);
}

// The checks of one register for a comparison: 2 to 6, then 18 at the lowest chunk that is not held.
#[unsafe(no_mangle)]
pub extern "C" fn sleep_flat_compare_held_part(
    tree: &[u8],
    signatures: &[u8],
    bitfield: &[u8],
    content: &[u8],
    n: u64,
    s: u64,
    size: u64,
    answer: &mut [u64; 3],
)
    ensures { answer.new ≡
        encoded (held_then
        (register_of tree.now signatures.now bitfield.now content.now n s size) done) }
{
    let said = compare::judge_held(tree, signatures, bitfield, content, n, s, size);
    *answer = c_encoding::encode(said);
}

// The checks 2 to 6 of two registers, then their root hashes and root messages.
#[unsafe(no_mangle)]
pub extern "C" fn sleep_flat_compare_roots_part(
    tree: &[u8],
    signatures: &[u8],
    bitfield: &[u8],
    content: &[u8],
    n: u64,
    s: u64,
    size: u64,
    tree2: &[u8],
    signatures2: &[u8],
    bitfield2: &[u8],
    content2: &[u8],
    n2: u64,
    s2: u64,
    size2: u64,
    answer: &mut [u64; 4],
)
    ensures { answer.new ≡
        encoded_comparison (roots_part node_hash
        (register_of tree.now signatures.now bitfield.now content.now n s size)
        (register_of tree2.now signatures2.now bitfield2.now content2.now n2 s2 size2)) }
{
    let said = parts_compare::roots_part(
        tree,
        signatures,
        bitfield,
        content,
        n,
        s,
        size,
        tree2,
        signatures2,
        bitfield2,
        content2,
        n2,
        s2,
        size2,
    );
    *answer = super::comparing::encode_comparison(said);
}

// The checks 2 to 6 of two registers, then the lowest collision from the tree index `from` on and before `to`.
#[unsafe(no_mangle)]
pub extern "C" fn sleep_flat_compare_walk_part(
    tree: &[u8],
    signatures: &[u8],
    bitfield: &[u8],
    content: &[u8],
    n: u64,
    s: u64,
    size: u64,
    tree2: &[u8],
    signatures2: &[u8],
    bitfield2: &[u8],
    content2: &[u8],
    n2: u64,
    s2: u64,
    size2: u64,
    from: u64,
    to: u64,
    answer: &mut [u64; 4],
)
    ensures { answer.new ≡
        encoded_comparison (walk_part
        (register_of tree.now signatures.now bitfield.now content.now n s size)
        (register_of tree2.now signatures2.now bitfield2.now content2.now n2 s2 size2) from to) }
{
    let said = parts_compare::walk_part(
        tree,
        signatures,
        bitfield,
        content,
        n,
        s,
        size,
        tree2,
        signatures2,
        bitfield2,
        content2,
        n2,
        s2,
        size2,
        TreeIndex(from),
        TreeIndex(to),
    );
    *answer = super::comparing::encode_comparison(said);
}
