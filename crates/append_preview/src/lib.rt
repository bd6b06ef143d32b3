// "Writing nothing, give what an append would answer on a copy of the lent buffers, length for length: the root hash, or the refusal and
// its place." All four images and the chunk are lent to be read; none is copied.
#![tactic(auto)]

ghost use Rattle.std.specs.Result.{result_unwrap_or};
ghost use Rattle.byte_strings.specs.Lists.{zeros};
ghost use Rattle.std.specs.Prelude.{◌≡◌, ◌+◌, ◌≤◌, ◌<◌, length};
ghost use Rattle.answer_types.specs.Meaning.{said};
ghost use Rattle.tree_index.specs.Tree.{completed};
ghost use Rattle.blake2b.specs.Hash.{node_hash};
ghost use Rattle.file_format.specs.Sizes.{used_tree};
ghost use Rattle.file_format.specs.Stored.{stored_root_message};
ghost use Rattle.checks.specs.Lent.{register_of};
ghost use Rattle.writing.specs.Append.{appended_tree};
ghost use Rattle.writing.specs.Inner.{entry_of, made, FilledFits};
ghost use Rattle.append_preview.specs.Preview.{message_with, PreviewPost};

use answer_types::Refusal;
use file_format::roots::Roots;
use writing::Node;

// Inner: the node that the chunk n completes last, over its leaf: the leaf itself where it completes no parent.
fn climbed(tree: &[u8], n: u64, leaf: Node) -> Node
    requires { FilledFits tree.now n leaf.size }
    ensures { entry_of result ≡ made node_hash tree.now n (entry_of leaf) (completed n) }
{
    let last = tree_index::completed(number_types::chunk_behind(n));
    let mut node = leaf;
    for d in 0..last {
        node = writing::parent_above(tree, n, d, node);
    }
    node
}

// Inner: the root hash of n + 1 chunks, from the stored roots of n. The chunk n takes up the last of them, and its node stands in their place.
#[tactic(auto, using(tree_index::proofs::Roots::length_roots_le))]
fn hash_with(tree: &[u8], n: u64, top: Node) -> [u8; 32]
    requires { (n < 1048576) × (used_tree n ≤ length tree.now) }
    ensures { result ≡ node_hash (message_with tree.now n (entry_of top)) }
{
    let count = tree_index::root_count(n + 1);
    let indexes = tree_index::root_indexes(n + 1);
    let kept = count - 1;
    let stored = file_format::roots::stored_roots(tree, n);
    let mut sizes = stored.sizes;
    sizes[kept] = top.size;
    let mut hashes = file_format::roots::stored_root_hashes(tree, n);
    let hash = top.hash;
    hashes[kept] = hash;
    let roots = Roots {
        count,
        indexes,
        sizes,
    };
    file_format::roots::root_hash(roots, hashes)
}

// Inner: the root hash that an append of the chunk would give. The chunk is hashed from where it is lent.
fn new_root(tree: &[u8], n: u64, chunk: &[u8]) -> [u8; 32]
    requires { FilledFits tree.now n (length chunk.now) }
    ensures { result ≡ node_hash (stored_root_message (appended_tree node_hash tree.now n chunk.now) (n + 1)) }
{
    let hash = file_format::hashes::leaf_hash(chunk);
    let size = chunk.len() as u64;
    let top = climbed(tree, n, Node { hash, size });
    hash_with(tree, n, top)
}

// What an append of the chunk would answer, and the root hash that it would give.
pub fn preview(
    tree: &[u8],
    signatures: &[u8],
    bitfield: &[u8],
    content: &[u8],
    n: u64,
    s: u64,
    size: u64,
    chunk: &[u8],
) -> Result<[u8; 32], Refusal>
    ensures { PreviewPost
        (register_of tree.now signatures.now bitfield.now content.now n s size)
        chunk.now (said result) (result_unwrap_or result (zeros 32)) }
{
    writing::judge_append(tree, signatures, bitfield, content, n, s, size, chunk)?;
    Ok(new_root(tree, n, chunk))
}
