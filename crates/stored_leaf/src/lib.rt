// The stored entry of a chunk's leaf, of a held chunk and of a released one. Nothing is audited.
#![tactic(auto)]

ghost use Rattle.std.specs.Prelude.{◌≡◌};
ghost use Rattle.answer_types.specs.Verdict.{done, and_then};
ghost use Rattle.answer_types.specs.Meaning.{said};
ghost use Rattle.checks.specs.Lent.{register_of};
ghost use Rattle.lookup.specs.Inner.{known_if, FilesIn};
ghost use Rattle.stored_leaf.specs.StoredLeaf.{leaf_in, leaf_verdict};
ghost use Rattle.stored_leaf.specs.Post.{LeafPost};

use answer_types::Refusal;
use number_types::ChunkNumber;

// Inner: 9, and in a copy 20 where the leaf's entry is unknown. `partly` says that the files are a copy's.
fn judge_leaf(
    tree: &[u8],
    bitfield: &[u8],
    partly: bool,
    n: u64,
    chunk: ChunkNumber,
) -> Result<(), Refusal>
    requires { FilesIn partly tree.now bitfield.now n }
    ensures { said result ≡ leaf_in (known_if partly bitfield.now) n chunk.0 }
{
    if n <= chunk.0 {
        return answer_types::refuse(9);
    }
    if !partly {
        return Ok(());
    }
    let leaf = tree_index::leaf_index(chunk);
    if bitfield::is_known(bitfield, leaf) {
        return Ok(());
    }
    answer_types::refuse_entry(20, leaf)
}

// Inner: behind the checks of a call, whose answer is `found`.
fn judge_behind(
    found: Result<(), Refusal>,
    tree: &[u8],
    bitfield: &[u8],
    partly: bool,
    n: u64,
    chunk: ChunkNumber,
) -> Result<(), Refusal>
    requires { said found ≡ done → FilesIn partly tree.now bitfield.now n }
    ensures { said result ≡ and_then (said found) (leaf_in (known_if partly bitfield.now) n chunk.0) }
{
    found?;
    judge_leaf(tree, bitfield, partly, n, chunk)
}

// Inner: the entry of a leaf, behind the checks of a call on a register or a copy, whose answer is `found`: its hash into `hash`, and its length.
pub fn give_leaf(
    found: Result<(), Refusal>,
    tree: &[u8],
    bitfield: &[u8],
    partly: bool,
    n: u64,
    chunk: ChunkNumber,
    hash: &mut [u8; 32],
) -> Result<u64, Refusal>
    requires { said found ≡ done → FilesIn partly tree.now bitfield.now n }
    ensures { LeafPost (and_then (said found) (leaf_in (known_if partly bitfield.now) n chunk.0)) tree.now chunk.0
        hash.old result hash.new }
{
    judge_behind(found, tree, bitfield, partly, n, chunk)?;
    let leaf = tree_index::leaf_index(chunk);
    *hash = file_format::entries::stored_hash(tree, leaf);
    Ok(file_format::entries::stored_size(tree, leaf))
}

// The entry that is stored for a chunk's leaf: its hash into `hash`, which is as it was after a refusal, and its length.
pub fn stored_leaf(
    tree: &[u8],
    signatures: &[u8],
    bitfield: &[u8],
    content: &[u8],
    n: u64,
    s: u64,
    size: u64,
    chunk: ChunkNumber,
    hash: &mut [u8; 32],
) -> Result<u64, Refusal>
    ensures { LeafPost
        (leaf_verdict
        (register_of tree.now signatures.now bitfield.now content.now n s size)
        chunk.0)
        tree.now chunk.0 hash.old result hash.new }
{
    let found = checks::judge(tree, signatures, bitfield, content, n, s, size);
    give_leaf(found, tree, bitfield, false, n, chunk, hash)
}
