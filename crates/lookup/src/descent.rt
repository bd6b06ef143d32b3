// Descents through stored lengths, from a root down to a leaf. All of these are inner: they require the tree file to hold the
// entries that they read, and the offsets to fit. `partly` says that the files are a copy's, of which only the entries whose tree bit is 1 are read.
ghost use Rattle.std.specs.Prelude.{◌≡◌, ◌+◌, ◌^◌, ◌<◌};
ghost use Rattle.tree_index.specs.Tree.{depth, block};
ghost use Rattle.lookup.specs.Descent as spec;
ghost use Rattle.lookup.specs.Unknown.{first_unknown, children_read, first_entry};
ghost use Rattle.lookup.specs.Inner.{within_of, ending_of, known_if, BitIn, ChildrenIn, FilesIn, Standing, StandsAt, Visited};
ghost use Rattle.lookup.specs.Capped.{capped_ending, moved_by, Passed, Behind};

use number_types::{ByteOffset, ChunkNumber, TreeIndex};

// What a lookup seeks.
#[derive(Clone, Copy)]
pub enum Sought {
    Chunk(ChunkNumber),
    Byte(ByteOffset),
}

// Where a descent ends: it stops at a tree index, comes to the leaf of a chunk, whose bytes begin at an offset, or would read an unknown entry.
#[derive(Clone, Copy)]
pub enum Ending {
    Stopped(TreeIndex),
    Reached(ChunkNumber, ByteOffset),
    Unknown(TreeIndex),
}

// What a visit of one node finds: the descent ends here, or goes on at a child, whose bytes begin at an offset.
#[derive(Clone, Copy)]
pub enum Step {
    End(Ending),
    Down(TreeIndex, ByteOffset),
}

// Whether what is sought lies in the block of an index or before it. Where the block is filled among c chunks, chunk c lies behind it.
fn is_within(sought: Sought, i: TreeIndex, start: ByteOffset, size: u64) -> bool
    requires { (i.0 < 4194304) × (start.0 + size < 2 ^ 64) }
    ensures { result ≡ within_of sought (depth i.0) (block i.0) start.0 size }
{
    match sought {
        Sought::Chunk(c) => !tree_index::ends_before(i, c),
        Sought::Byte(b) => b.0 < start.0 + size,
    }
}

// One node on the way down. A parent's length is compared with the sum of its children's as whole numbers, before a child is chosen.
fn visit(tree: &[u8], sought: Sought, i: TreeIndex, start: ByteOffset) -> Step
    requires { StandsAt tree.now i.0 start.0 }
    ensures { Visited (within_of sought) tree.now i.0 start.0 result }
{
    let size = file_format::entries::stored_size(tree, i);
    if tree_index::depth(i) == 0 {
        if 65536 < size {
            return Step::End(Ending::Stopped(i));
        }
        return Step::End(Ending::Reached(tree_index::chunk_of_leaf(i), start));
    }
    let left = tree_index::left_child(i);
    let right = tree_index::right_child(i);
    let first = file_format::entries::stored_size(tree, left);
    let second = file_format::entries::stored_size(tree, right);
    if size < first {
        return Step::End(Ending::Stopped(i));
    }
    if size - first != second {
        return Step::End(Ending::Stopped(i));
    }
    if is_within(sought, left, start, first) {
        return Step::Down(left, start);
    }
    Step::Down(right, ByteOffset(start.0 + first))
}

// Inner: whether an entry may be read, of a copy one whose tree bit is 1. A register's bits are not asked for.
pub fn is_known(bitfield: &[u8], partly: bool, i: TreeIndex) -> bool
    requires { BitIn partly bitfield.now i.0 }
    ensures { result ≡ known_if partly bitfield.now i.0 }
{
    if partly {
        return bitfield::is_known(bitfield, i);
    }
    true
}

// The first unknown of a node's children, the left before the right; a leaf has none. A register's bits are not asked for.
fn unknown_child(bitfield: &[u8], partly: bool, i: TreeIndex) -> Option<TreeIndex>
    requires { ChildrenIn partly bitfield.now i.0 }
    ensures { first_entry result ≡ first_unknown (known_if partly bitfield.now) (children_read (depth i.0) i.0) }
{
    if !partly {
        return None;
    }
    if tree_index::depth(i) == 0 {
        return None;
    }
    let left = tree_index::left_child(i);
    if !is_known(bitfield, partly, left) {
        return Some(left);
    }
    let right = tree_index::right_child(i);
    if !is_known(bitfield, partly, right) {
        return Some(right);
    }
    None
}

// From a node down to a leaf: the depth falls at each call.
fn descend(
    tree: &[u8],
    bitfield: &[u8],
    partly: bool,
    sought: Sought,
    i: TreeIndex,
    start: ByteOffset,
) -> Ending
    requires { Standing partly tree.now bitfield.now i.0 start.0 }
    ensures { ending_of result ≡
        spec.descend (known_if partly bitfield.now) (within_of sought) tree.now (depth i.0) (block i.0) start.0 }
{
    match unknown_child(bitfield, partly, i) {
        Some(child) => Ending::Unknown(child),
        None => match visit(tree, sought, i, start) {
            Step::End(ending) => ending,
            Step::Down(child, from) => descend(tree, bitfield, partly, sought, child, from),
        },
    }
}

// An ending in a block whose bytes begin at a start, from its ending in the block alone.
fn moved(ending: Ending, start: ByteOffset) -> Ending
    ensures { ending_of result ≡ capped_ending (moved_by start.0 (ending_of ending)) }
{
    match ending {
        Ending::Stopped(i) => Ending::Stopped(i),
        Ending::Unknown(i) => Ending::Unknown(i),
        Ending::Reached(chunk, from) => Ending::Reached(chunk, checks::add_capped(start, from.0)),
    }
}

// What is sought, told from so many bytes on.
fn behind(sought: Sought, size: u64) -> Sought
    requires { Passed sought size }
    ensures { Behind sought size result }
{
    match sought {
        Sought::Chunk(c) => Sought::Chunk(c),
        Sought::Byte(b) => Sought::Byte(ByteOffset(b.0 - size)),
    }
}

// From the first of the roots of n chunks that has what is sought: each root up to it is read, and none but it is visited. Each root is searched as if its
// bytes began at 0, so that the lengths of the roots may add up to more than fits.
pub fn from_roots(tree: &[u8], bitfield: &[u8], partly: bool, n: u64, sought: Sought) -> Ending
    requires { FilesIn partly tree.now bitfield.now n }
    ensures { ending_of result ≡
        capped_ending (spec.descent (known_if partly bitfield.now) (within_of sought) tree.now n) }
{
    let count = tree_index::root_count(n);
    let roots = tree_index::root_indexes(n);
    let mut start = ByteOffset(0);
    let mut left = sought;
    for &i in &roots[0..count] {
        if !is_known(bitfield, partly, i) {
            return Ending::Unknown(i);
        }
        let size = file_format::entries::stored_size(tree, i);
        if is_within(left, i, ByteOffset(0), size) {
            let ending = descend(tree, bitfield, partly, left, i, ByteOffset(0));
            return moved(ending, start);
        }
        left = behind(left, size);
        start = checks::add_capped(start, size);
    }
    Ending::Stopped(TreeIndex(0))
}
