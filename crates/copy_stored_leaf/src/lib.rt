// The stored entry of a chunk's leaf in a partial copy. Its files are lent to be read, and nothing is audited.
#![tactic(auto)]

ghost use Rattle.copy_checks.specs.Copy.{copy_of};
ghost use Rattle.stored_leaf.specs.Post.{LeafPost};
ghost use Rattle.copy_stored_leaf.specs.StoredLeaf.{copy_leaf_verdict};

use answer_types::Refusal;
use number_types::ChunkNumber;

// The entry that is stored for a chunk's leaf, where it is known: its hash into `hash`, which is as it was after a refusal, and its length.
pub fn stored_leaf(
    tree: &[u8],
    bitfield: &[u8],
    content: &[u8],
    n: u64,
    size: u64,
    chunk: ChunkNumber,
    hash: &mut [u8; 32],
) -> Result<u64, Refusal>
    ensures { LeafPost
        (copy_leaf_verdict (copy_of tree.now bitfield.now content.now n size) chunk.0)
        tree.now chunk.0 hash.old result hash.new }
{
    let found = copy_checks::judge(tree, bitfield, content, n, size);
    stored_leaf::give_leaf(found, tree, bitfield, true, n, chunk, hash)
}
