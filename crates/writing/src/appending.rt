// An append: "adds one chunk, writes the leaf, every completed parent and the new hole, if any, sets the bits, regenerates the
// Index of the new chunk's bitfield entry (zeroed first if it is new), and answers the new root hash".
ghost use Rattle.std.specs.Result.{result_unwrap_or};
ghost use Rattle.std.specs.Prelude.{◌≡◌, ◌+◌, ◌≤◌, ◌<◌, length};
ghost use Rattle.byte_strings.specs.Lists.{put, zeros};
ghost use Rattle.tree_index.specs.Tree.{completed, filled_by};
ghost use Rattle.blake2b.specs.Hash.{node_hash};
ghost use Rattle.file_format.specs.Sizes.{entry_place, used_tree};
ghost use Rattle.file_format.specs.Entries.{entry_bytes, parent_of};
ghost use Rattle.answer_types.specs.Verdict.{done};
ghost use Rattle.answer_types.specs.Meaning.{said};
ghost use Rattle.checks.specs.Checks.{judged};
ghost use Rattle.checks.specs.Lent.{register_of};
ghost use Rattle.writing.specs.Append.{own_checks, append_verdict, stored_entry, sibling as siblingOf, with_hole, with_entries, climb};
ghost use Rattle.writing.specs.Inner.{place, entry_of, with_leaf, NodeFits, AboveFits, FilledFits, StoreFits, StorePost};
ghost use Rattle.writing.specs.Post.{lent, AppendPost};

use answer_types::Refusal;

// A tree entry by value.
#[derive(Clone, Copy)]
pub struct Node {
    pub hash: [u8; 32],
    pub size: u64,
}

// Inner: the numbers 7, 8 and 14, of a register that passes 2 to 6.
fn judge_own(
    tree: &[u8],
    signatures: &[u8],
    bitfield: &[u8],
    content: &[u8],
    n: u64,
    s: u64,
    size: u64,
    chunk: &[u8],
) -> Result<(), Refusal>
    requires { (n < 1048576) × (size ≤ length content.now) }
    ensures { said result ≡
        judged
        (own_checks
        (register_of tree.now signatures.now bitfield.now content.now n s size)
        chunk.now)
        done }
{
    if 65536 < chunk.len() {
        return answer_types::refuse(7);
    }
    if s != n {
        return answer_types::refuse(8);
    }
    if tree.len() < file_format::sizes::used_tree(n + 1) {
        return answer_types::refuse(14);
    }
    if bitfield.len() < file_format::sizes::used_bitfield(n + 1) {
        return answer_types::refuse(14);
    }
    if content.len() < (size as usize) + chunk.len() {
        return answer_types::refuse(14);
    }
    Ok(())
}

// All checks of an append: "2. .. or an append finds n at 1,048,576", then 3 to 6, then its own. They only read.
pub fn judge(
    tree: &[u8],
    signatures: &[u8],
    bitfield: &[u8],
    content: &[u8],
    n: u64,
    s: u64,
    size: u64,
    chunk: &[u8],
) -> Result<(), Refusal>
    ensures { said result ≡
        append_verdict
        (register_of tree.now signatures.now bitfield.now content.now n s size)
        chunk.now }
{
    if 1048576 <= n {
        return answer_types::refuse(2);
    }
    checks::judge_later(tree, signatures, bitfield, content, n, s, size)?;
    judge_own(tree, signatures, bitfield, content, n, s, size, chunk)
}

// Inner: the new hole, if any. The parent before the leaf of the chunk n is new; it is a hole where the chunk does not complete it.
fn clear_hole(tree: &mut [u8], n: u64)
    requires { (n < 1048576) × (used_tree (n + 1) ≤ length tree.old) }
    ensures { tree.new ≡ with_hole tree.old n }
{
    if n == 0 {
        return;
    }
    let i = tree_index::parent_before(number_types::chunk_behind(n));
    if tree_index::is_filled(n + 1, i) {
        return;
    }
    file_format::entries::clear_entry(tree, i);
}

// Inner: an entry at the node of the 2^d chunks that end with the chunk n.
fn put_node(tree: &mut [u8], n: u64, d: u32, node: Node)
    requires { NodeFits tree.old n d }
    ensures { tree.new ≡ put tree.old (entry_place (place n d)) (entry_bytes (entry_of node)) }
{
    let i = tree_index::node_ending(number_types::chunk_behind(n), d);
    file_format::entries::write_entry(tree, i, &node.hash, node.size);
}

// Inner: the parent of a node that ends with the chunk n and of its left sibling, a stored root.
pub fn above(tree: &[u8], n: u64, d: u32, node: Node) -> Node
    requires { AboveFits tree.now n d node.size }
    ensures { entry_of result ≡ parent_of node_hash (stored_entry tree.now (siblingOf n d)) (entry_of node) }
{
    let i = tree_index::node_index(d, ((n + 1) >> d) - 2);
    let left = file_format::entries::stored_hash(tree, i);
    let size = file_format::entries::stored_size(tree, i) + node.size;
    let hash = file_format::hashes::parent_hash(size, &left, &node.hash);
    Node { hash, size }
}

// Inner: the leaf of the chunk n and every parent that it completes. No sibling that is read was written before: siblings are
// filled among n chunks, and what is written was not.
fn write_filled(tree: &mut [u8], n: u64, leaf: Node)
    requires { FilledFits tree.old n leaf.size }
    ensures { tree.new ≡
        with_entries tree.old (filled_by n) (climb node_hash tree.old n 0 (completed n) (entry_of leaf)) }
{
    let last = tree_index::completed(number_types::chunk_behind(n));
    let mut node = leaf;
    for d in 0..last {
        put_node(tree, n, d, node);
        node = above(tree, n, d, node);
    }
    put_node(tree, n, last, node);
}

// Inner: the new hole, if any, and the leaf of the chunk n with every parent that it completes.
pub fn add_leaf(tree: &mut [u8], n: u64, leaf: Node)
    requires { FilledFits tree.old n leaf.size }
    ensures { tree.new ≡ with_leaf tree.old n (entry_of leaf) }
{
    clear_hole(tree, n);
    write_filled(tree, n, leaf);
}

// Inner: the chunk into the data, where it is hashed, and the rest into the tree and the bitfield; the new root hash.
fn store(
    tree: &mut [u8],
    bitfield: &mut [u8],
    content: &mut [u8],
    n: u64,
    size: u64,
    chunk: &[u8],
) -> [u8; 32]
    requires { StoreFits tree.old bitfield.old content.old n size chunk.now }
    ensures { StorePost tree.old bitfield.old content.old n size chunk.now result
        tree.new bitfield.new content.new }
{
    let start = size as usize;
    let end = start + chunk.len();
    byte_strings::copy_to(content, start, chunk);
    let hash = file_format::hashes::leaf_hash(&content[start..end]);
    add_leaf(
        tree,
        n,
        Node {
            hash,
            size: chunk.len() as u64,
        },
    );
    bitfield::append_bits(bitfield, number_types::chunk_behind(n));
    file_format::roots::stored_root_hash(tree, n + 1)
}

// One more chunk, whose predecessor's signature is stored.
pub fn append(
    tree: &mut [u8],
    signatures: &[u8],
    bitfield: &mut [u8],
    content: &mut [u8],
    n: u64,
    s: u64,
    size: u64,
    chunk: &[u8],
) -> Result<[u8; 32], Refusal>
    ensures { AppendPost
        (register_of tree.old signatures.now bitfield.old content.old n s size)
        chunk.now (said result) (result_unwrap_or result (zeros 32))
        (lent tree.new signatures.now bitfield.new content.new) }
{
    judge(tree, signatures, bitfield, content, n, s, size, chunk)?;
    Ok(store(tree, bitfield, content, n, size, chunk))
}
