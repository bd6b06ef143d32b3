// The tree file: "a leaf .. is wrong if it is over 65,536, runs past the data or has another hash; a parent if it doesn't follow
// from its stored children, sums taken in whole numbers; a hole if it isn't zero." The leaf of a released chunk has any hash, and zeros for
// its data. All of these are inner.
ghost use Rattle.std.specs.Prelude.{◌≡◌, ◌+◌, ◌-◌, ◌*◌, ◌≤◌, ◌<◌};
ghost use Rattle.answer_types.specs.Verdict.{tree as at_tree, done};
ghost use Rattle.answer_types.specs.Meaning.{said};
ghost use Rattle.tree_index.specs.Tree.{entries as entries_of};
ghost use Rattle.blake2b.specs.Hash.{node_hash};
ghost use Rattle.file_format.specs.Stored.{stored_start};
ghost use Rattle.file_format.specs.Inner.{EntryIn, RootsIn};
ghost use Rattle.checks.specs.Capped.{capped};
ghost use Rattle.audit.specs.Audit.{lowest, parent_right, hole_right, entry_right, refused_at, leaf_from};
ghost use Rattle.audit.specs.TreeWalk.{leaves_before, FilesIn, Started, AtEntry, AtLeaf, AtParent};

use answer_types::Refusal;
use number_types::{ByteOffset, ChunkNumber, TreeIndex};

// Inner: how many entries the tree file of n chunks has.
#[tactic(auto, unfolding(tree_index::specs::Tree::entries))]
pub fn entry_count(n: u64) -> u64
    requires { n ≤ 1048576 }
    ensures { result ≡ entries_of n }
{
    if n == 0 {
        return 0;
    }
    2 * n - 1
}

// Inner: where the next leaf starts once a walk from the left has passed the entry i.
pub fn start_behind(tree: &[u8], i: TreeIndex, start: ByteOffset) -> ByteOffset
    requires { Started tree.now i.0 start.0 }
    ensures { result.0 ≡ capped (stored_start tree.now (leaves_before (i.0 + 1))) }
{
    if i.0 % 2 == 0 {
        return checks::add_capped(start, file_format::entries::stored_size(tree, i));
    }
    start
}

// The chunk of the first leaf from a tree index on: as many leaves stand before it.
fn next_chunk(i: TreeIndex) -> ChunkNumber
    requires { i.0 < 4194304 }
    ensures { result.0 ≡ leaves_before i.0 }
{
    ChunkNumber((i.0 + 1) / 2)
}

// Inner: where the first leaf from the entry i on starts: the sum of the leaf lengths before it, whatever else those entries say.
pub fn start_at(tree: &[u8], n: u64, i: TreeIndex) -> ByteOffset
    requires { RootsIn tree.now n × (i.0 < entries_of n) }
    ensures { result.0 ≡ capped (stored_start tree.now (leaves_before i.0)) }
{
    let end = next_chunk(i);
    let mut start = ByteOffset(0);
    for c in 0..end.0 {
        let leaf = tree_index::leaf_index(ChunkNumber(c));
        start = checks::add_capped(start, file_format::entries::stored_size(tree, leaf));
    }
    start
}

// Inner: whether a leaf is right whose data begin at `start`, which may be past the data. A chunk that is held is hashed from its place in the
// data; there one that is not held is zero.
pub fn leaf_right(
    tree: &[u8],
    content: &[u8],
    size: u64,
    held: bool,
    c: ChunkNumber,
    start: ByteOffset,
) -> bool
    requires { AtLeaf tree.now content.now size c.0 }
    ensures { result ≡ leaf_from node_hash tree.now content.now size held (2 * c.0) start.0 }
{
    let i = tree_index::leaf_index(c);
    let length = file_format::entries::stored_size(tree, i);
    if 65536 < length {
        return false;
    }
    if size < start.0 {
        return false;
    }
    if size - start.0 < length {
        return false;
    }
    let from = start.0 as usize;
    let end = from + (length as usize);
    if !held {
        return byte_strings::is_zero(&content[from..end]);
    }
    let expected = file_format::hashes::leaf_hash(&content[from..end]);
    let stored = file_format::entries::stored_hash(tree, i);
    byte_strings::same(&stored, &expected)
}

// Inner: whether a parent is right. No sum is taken that could wrap.
pub fn parent_right(tree: &[u8], i: TreeIndex) -> bool
    requires { AtParent tree.now i.0 }
    ensures { result ≡ parent_right node_hash tree.now i.0 }
{
    let left = tree_index::left_child(i);
    let right = tree_index::right_child(i);
    let here = file_format::entries::stored_size(tree, i);
    let first = file_format::entries::stored_size(tree, left);
    if here < first {
        return false;
    }
    let second = file_format::entries::stored_size(tree, right);
    if here - first != second {
        return false;
    }
    let a = file_format::entries::stored_hash(tree, left);
    let b = file_format::entries::stored_hash(tree, right);
    let expected = file_format::hashes::parent_hash(here, &a, &b);
    let stored = file_format::entries::stored_hash(tree, i);
    byte_strings::same(&stored, &expected)
}

// Inner: whether a hole is right.
pub fn hole_right(tree: &[u8], i: TreeIndex) -> bool
    requires { EntryIn tree.now i.0 }
    ensures { result ≡ hole_right node_hash tree.now i.0 }
{
    let from = file_format::entries::entry_place(i);
    let end = from + 40;
    byte_strings::is_zero(&tree[from..end])
}

// Whether an entry is right, whichever it is.
fn entry_right(
    tree: &[u8],
    bitfield: &[u8],
    content: &[u8],
    n: u64,
    size: u64,
    i: TreeIndex,
    start: ByteOffset,
) -> bool
    requires { AtEntry tree.now bitfield.now content.now n size i.0 start.0 }
    ensures { result ≡ entry_right node_hash tree.now bitfield.now content.now n size i.0 }
{
    if !tree_index::is_filled(n, i) {
        return hole_right(tree, i);
    }
    if i.0 % 2 == 0 {
        let c = tree_index::chunk_of_leaf(i);
        let held = bitfield::is_held(bitfield, c);
        return leaf_right(tree, content, size, held, c, start);
    }
    parent_right(tree, i)
}

// Inner: the lowest wrong entry from `from` on and before `end`, found by one walk from the left that carries the start of the next leaf, so that
// each byte of the data is read once.
pub fn wrong_between(
    tree: &[u8],
    bitfield: &[u8],
    content: &[u8],
    n: u64,
    size: u64,
    from: TreeIndex,
    end: TreeIndex,
) -> Result<(), Refusal>
    requires { FilesIn tree.now bitfield.now content.now n size × (end.0 ≤ entries_of n) }
    ensures { said result ≡
        refused_at 10 at_tree
        (lowest (entry_right node_hash tree.now bitfield.now content.now n size) from.0
        (end.0 - from.0))
        done }
{
    if end.0 <= from.0 {
        return Ok(());
    }
    let mut start = start_at(tree, n, from);
    for index in from.0..end.0 {
        let i = TreeIndex(index);
        if !entry_right(tree, bitfield, content, n, size, i, start) {
            return answer_types::refuse_entry(10, i);
        }
        start = start_behind(tree, i, start);
    }
    Ok(())
}

// Inner: the lowest wrong entry of all.
pub fn wrong_entry(
    tree: &[u8],
    bitfield: &[u8],
    content: &[u8],
    n: u64,
    size: u64,
) -> Result<(), Refusal>
    requires { FilesIn tree.now bitfield.now content.now n size }
    ensures { said result ≡
        refused_at 10 at_tree
        (lowest (entry_right node_hash tree.now bitfield.now content.now n size) 0 (entries_of n))
        done }
{
    let end = TreeIndex(entry_count(n));
    wrong_between(tree, bitfield, content, n, size, TreeIndex(0), end)
}
