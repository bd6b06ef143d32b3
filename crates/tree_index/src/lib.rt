// The in-order tree: indexes, depths, children, parents and roots.
//
// Every function here is inner: its `requires` names its bounds, which its callers meet.
#![tactic(auto)]

ghost use Rattle.std.specs.Prelude.{◌≡◌, ◌++◌, ◌+◌, ◌-◌, ◌*◌, ◌/◌, ◌%◌, ◌^◌, ◌≤◌, ◌<◌, length, replicate};
ghost use Rattle.tree_index.specs.Tree as tree;
ghost use Rattle.tree_index.specs.Numbers.{numbers};

use number_types::{ChunkNumber, TreeIndex};

// The leaf of a chunk. Inner.
#[tactic(auto, unfolding(crate::specs::Tree::index))]
pub fn leaf_index(c: ChunkNumber) -> TreeIndex
    requires { c.0 < 2097152 }
    ensures { result.0 ≡ tree.index 0 c.0 }
{
    TreeIndex(2 * c.0)
}

// The entry just before the leaf of a chunk that is not the first: a parent, which the append of the chunk makes. Inner.
pub fn parent_before(c: ChunkNumber) -> TreeIndex
    requires { (0 < c.0) × (c.0 < 2097152) }
    ensures { result.0 ≡ 2 * c.0 - 1 }
{
    TreeIndex(2 * c.0 - 1)
}

// The chunk of a leaf. Inner.
#[tactic(auto, using(crate::proofs::Words::leaf_block))]
pub fn chunk_of_leaf(i: TreeIndex) -> ChunkNumber
    requires { i.0 % 2 ≡ 0 }
    ensures { result.0 ≡ tree.block i.0 }
{
    ChunkNumber(i.0 / 2)
}

// How many chunks the block of an index has, as a power of two: the trailing ones of the index. Inner.
#[tactic(auto, using(crate::proofs::Index::trailing_depth))]
pub fn depth(i: TreeIndex) -> u32
    requires { i.0 < 4194304 }
    ensures { result ≡ tree.depth i.0 }
{
    (i.0 + 1).trailing_zeros()
}

// Which block of that many chunks an index stands for. Inner.
#[tactic(auto, using(crate::proofs::Words::depth_small, crate::proofs::Words::block_word))]
pub fn block(i: TreeIndex) -> u64
    requires { i.0 < 4194304 }
    ensures { result ≡ tree.block i.0 }
{
    let d = depth(i);
    i.0 >> (d + 1)
}

// The index of the block k of 2^d chunks. Inner.
#[tactic(auto, using(crate::proofs::Words::node_word))]
pub fn node_index(d: u32, k: u64) -> TreeIndex
    requires { (d < 32) × (k < 8388608) }
    ensures { result.0 ≡ tree.index d k }
{
    let end = (2 * k + 1) << d;
    TreeIndex(end - 1)
}

// The left child of a parent. Inner.
#[tactic(auto, using(crate::proofs::Words::depth_small, crate::proofs::Words::half_small, crate::proofs::Words::left_word))]
pub fn left_child(i: TreeIndex) -> TreeIndex
    requires { (i.0 < 4194304) × (0 < tree.depth i.0) }
    ensures { result.0 ≡ tree.left_child i.0 }
{
    let half: u64 = 1 << (depth(i) - 1);
    TreeIndex(i.0 - half)
}

// The right child of a parent. Inner.
#[tactic(auto, using(crate::proofs::Words::depth_small, crate::proofs::Words::half_small, crate::proofs::Words::right_word))]
pub fn right_child(i: TreeIndex) -> TreeIndex
    requires { (i.0 < 4194304) × (0 < tree.depth i.0) }
    ensures { result.0 ≡ tree.right_child i.0 }
{
    let half: u64 = 1 << (depth(i) - 1);
    TreeIndex(i.0 + half)
}

// Whether all chunks of an index's block are among n. Inner.
#[tactic(auto, using(crate::proofs::Words::depth_small, crate::proofs::Words::size_small, crate::proofs::Words::filled_word))]
pub fn is_filled(n: u64, i: TreeIndex) -> bool
    requires { i.0 < 4194304 }
    ensures { result ≡ tree.filled n i.0 }
{
    let size: u64 = 1 << depth(i);
    (i.0 + 1 + size) / 2 <= n
}

// Whether all chunks of an index's block stand before a chunk. Inner.
pub fn ends_before(i: TreeIndex, c: ChunkNumber) -> bool
    requires { i.0 < 4194304 }
    ensures { result ≡ tree.filled c.0 i.0 }
{
    is_filled(c.0, i)
}

// How many roots n chunks have: a root for each one bit of n. Inner.
#[tactic(auto, using(crate::proofs::Roots::length_roots))]
pub fn root_count(n: u64) -> usize
    requires { n ≤ 1048576 }
    ensures { result ≡ length (tree.roots n) }
{
    n.count_ones() as usize
}

// Which block of 2^d chunks a chunk is in. Inner.
pub fn block_over(c: ChunkNumber, d: u32) -> u64
    requires { d < 64 }
    ensures { result ≡ c.0 / 2 ^ d }
{
    c.0 >> d
}

// How many parents a chunk completes. Inner.
#[tactic(auto, unfolding(crate::specs::Tree::completed))]
pub fn completed(c: ChunkNumber) -> u32
    requires { c.0 < 1048576 }
    ensures { result ≡ tree.completed c.0 }
{
    (c.0 + 1).trailing_zeros()
}

// The node of the 2^d chunks that end with a chunk: its leaf, or a parent that it completes. Inner.
pub fn node_ending(c: ChunkNumber, d: u32) -> TreeIndex
    requires { (c.0 < 1048576) × (d ≤ tree.completed c.0) }
    ensures { result.0 ≡ tree.index d ((c.0 + 1) / 2 ^ d - 1) }
{
    let blocks = (c.0 + 1) >> d;
    node_index(d, blocks - 1)
}

// The roots of n chunks, largest first, and zeros behind them. Inner.
#[tactic(auto, using(crate::proofs::Gathered::gathered_room, crate::proofs::Gathered::gathered_all))]
pub fn root_indexes(n: u64) -> [TreeIndex; 20]
    requires { n ≤ 1048576 }
    ensures { numbers result ≡ tree.roots n ++ replicate (20 - length (tree.roots n)) 0 }
{
    let mut found = [TreeIndex(0); 20];
    let mut count: usize = 0;
    for d in (0..21).rev() {
        let high = n >> d;
        if high % 2 == 1 {
            found[count] = node_index(d, high - 1);
            count += 1;
        }
    }
    found
}
