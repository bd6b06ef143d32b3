// The tree entries of a copy, one by one. All of these are inner: they require the files to hold the entries of n chunks and their bits.
ghost use Rattle.std.specs.Prelude.{◌≡◌, ◌&&◌, ◌||◌, not, ◌-◌, ◌*◌, ◌≤◌, ◌<◌};
ghost use Rattle.byte_strings.specs.Lists.{run};
ghost use Rattle.bitfield.specs.Known.{stored_known};
ghost use Rattle.bitfield.specs.Release.{stored_held};
ghost use Rattle.tree_index.specs.Tree.{left_child, right_child, entries as entries_of};
ghost use Rattle.blake2b.specs.Hash.{node_hash};
ghost use Rattle.file_format.specs.Inner.{EntryIn};
ghost use Rattle.audit.specs.Audit.{parent_right, hole_right, leaf_from};
ghost use Rattle.audit.specs.TreeWalk.{FilesIn};
ghost use Rattle.copy_checks.specs.Copy.{copy_of};
ghost use Rattle.copy_checks.specs.Least.{least_of};
ghost use Rattle.lookup.specs.Unknown.{first_entry};
ghost use Rattle.copy_audit.specs.Audit.{held_leaf, wrong_unless, wrong_by_leaf, wrong_by, wrong_entry_of_copy};
ghost use Rattle.copy_audit.specs.Inner.{AtNode, AtChunk, AtFamily};

use lookup::{Ending, Sought};
use number_types::{ByteOffset, ChunkNumber, TreeIndex};

// A tree index, where a test finds its entry wrong.
fn wrong_unless(right: bool, i: TreeIndex) -> Option<TreeIndex>
    ensures { first_entry result ≡ wrong_unless right i.0 }
{
    if right {
        return None;
    }
    Some(i)
}

// Whether a tree index is the leaf of a chunk that is held.
fn held_leaf(bitfield: &[u8], n: u64, i: TreeIndex) -> bool
    requires { AtNode bitfield.now n i.0 }
    ensures { result ≡ held_leaf bitfield.now i.0 }
{
    if i.0 % 2 == 0 {
        return bitfield::is_held(bitfield, tree_index::chunk_of_leaf(i));
    }
    false
}

// Whether an entry that is not known is right: it is zero, and its chunk not held.
fn unknown_right(tree: &[u8], bitfield: &[u8], n: u64, i: TreeIndex) -> bool
    requires { EntryIn tree.now i.0 × AtNode bitfield.now n i.0 }
    ensures { result ≡ (hole_right node_hash tree.now i.0 && not (held_leaf bitfield.now i.0)) }
{
    if !audit::hole_right(tree, i) {
        return false;
    }
    !held_leaf(bitfield, n, i)
}

// Whether a parent is right as far as it can be judged: "only where it and both children are known".
fn parent_right(tree: &[u8], bitfield: &[u8], i: TreeIndex) -> bool
    requires { AtFamily tree.now bitfield.now i.0 }
    ensures { result ≡
        (not (stored_known bitfield.now (left_child i.0) && stored_known bitfield.now (right_child i.0))
        || parent_right node_hash tree.now i.0) }
{
    let left = tree_index::left_child(i);
    let right = tree_index::right_child(i);
    if !bitfield::is_known(bitfield, left) {
        return true;
    }
    if !bitfield::is_known(bitfield, right) {
        return true;
    }
    audit::parent_right(tree, i)
}

// Whether a leaf is right whose data begin at `start`, which may be past the data.
fn leaf_right(
    tree: &[u8],
    bitfield: &[u8],
    content: &[u8],
    n: u64,
    size: u64,
    c: ChunkNumber,
    start: ByteOffset,
) -> bool
    requires { AtChunk tree.now bitfield.now content.now n size c.0 }
    ensures { result ≡
        leaf_from node_hash tree.now content.now size (stored_held bitfield.now c.0) (2 * c.0) start.0 }
{
    let held = bitfield::is_held(bitfield, c);
    audit::leaf_right(tree, content, size, held, c, start)
}

// What is found wrong by a known leaf: "a stop counts as a wrong entry at the stop, and a leaf whose descent .. meets an unknown entry before a stop
// is itself wrong".
fn wrong_by_leaf(
    tree: &[u8],
    bitfield: &[u8],
    content: &[u8],
    n: u64,
    size: u64,
    c: ChunkNumber,
) -> Option<TreeIndex>
    requires { AtChunk tree.now bitfield.now content.now n size c.0 }
    ensures { first_entry result ≡ wrong_by_leaf node_hash (copy_of tree.now bitfield.now content.now n size) c.0 }
{
    let leaf = tree_index::leaf_index(c);
    match lookup::from_roots(tree, bitfield, true, n, Sought::Chunk(c)) {
        Ending::Stopped(i) => Some(i),
        Ending::Unknown(_) => Some(leaf),
        Ending::Reached(_, start) => {
            let right = leaf_right(tree, bitfield, content, n, size, c, start);
            wrong_unless(right, leaf)
        }
    }
}

// What is found wrong when the audit comes to an entry: this one, or the one at which the descent to it stops.
fn wrong_by(
    tree: &[u8],
    bitfield: &[u8],
    content: &[u8],
    n: u64,
    size: u64,
    i: TreeIndex,
) -> Option<TreeIndex>
    requires { FilesIn tree.now bitfield.now content.now n size × (i.0 < entries_of n) }
    ensures { first_entry result ≡ wrong_by node_hash (copy_of tree.now bitfield.now content.now n size) i.0 }
{
    if !tree_index::is_filled(n, i) {
        return wrong_unless(audit::hole_right(tree, i), i);
    }
    if !bitfield::is_known(bitfield, i) {
        return wrong_unless(unknown_right(tree, bitfield, n, i), i);
    }
    if i.0 % 2 == 0 {
        return wrong_by_leaf(
            tree,
            bitfield,
            content,
            n,
            size,
            tree_index::chunk_of_leaf(i),
        );
    }
    wrong_unless(parent_right(tree, bitfield, i), i)
}

// Inner: the lowest entry that is found wrong when the audit comes to those from `from` on and before `end`. A descent may stop above or below the
// leaf that it goes to, so all of these are gone through.
pub fn wrong_between(
    tree: &[u8],
    bitfield: &[u8],
    content: &[u8],
    n: u64,
    size: u64,
    from: TreeIndex,
    end: TreeIndex,
) -> Option<TreeIndex>
    requires { FilesIn tree.now bitfield.now content.now n size × (end.0 ≤ entries_of n) }
    ensures { first_entry result ≡
        least_of
        (run (wrong_by node_hash (copy_of tree.now bitfield.now content.now n size)) from.0
        (end.0 - from.0)) }
{
    let mut found = None;
    for i in from.0..end.0 {
        let here = wrong_by(tree, bitfield, content, n, size, TreeIndex(i));
        found = copy_checks::lower_of(found, here);
    }
    found
}

// Inner: the lowest of all.
pub fn wrong_entry(
    tree: &[u8],
    bitfield: &[u8],
    content: &[u8],
    n: u64,
    size: u64,
) -> Option<TreeIndex>
    requires { FilesIn tree.now bitfield.now content.now n size }
    ensures { first_entry result ≡ wrong_entry_of_copy node_hash (copy_of tree.now bitfield.now content.now n size) }
{
    let end = TreeIndex(audit::entry_count(n));
    wrong_between(tree, bitfield, content, n, size, TreeIndex(0), end)
}
