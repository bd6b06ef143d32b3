// The way of a chunk: the tree indexes of what its packet brings. All of these are inner.
ghost use Rattle.std.specs.Prelude.{◌≡◌, ◌≤◌, ◌<◌};
ghost use Rattle.tree_index.specs.Numbers.{numbers};
ghost use Rattle.file_format.specs.Entries.{entry_bytes};
ghost use Rattle.file_format.specs.RootsByValue.{padded};
ghost use Rattle.packet.specs.Inner.{ChunkOf, entry_of};
ghost use Rattle.copy_take_in.specs.Inner.{above_row, WayOf};

use number_types::{ChunkNumber, TreeIndex};
use packet::Node;

// How many siblings and how many other roots there are, and the tree indexes of parents, siblings and other roots.
#[derive(Clone, Copy)]
pub struct Way {
    pub up: usize,
    pub above: [TreeIndex; 20],
    pub beside: [TreeIndex; 20],
    pub others: usize,
    pub roots: [TreeIndex; 20],
}

// The parents on the way up from a chunk, from the leaf upward, and zeros behind them.
fn above_indexes(chunk: ChunkNumber, count: u32) -> [TreeIndex; 20]
    requires { (chunk.0 < 1048576) × (count ≤ 20) }
    ensures { numbers result ≡ padded 0 count (above_row chunk.0 count) }
{
    let mut found = [TreeIndex(0); 20];
    for h in 0..count {
        let k = tree_index::block_over(chunk, h + 1);
        found[h as usize] = tree_index::node_index(h + 1, k);
    }
    found
}

// The way of a chunk among n.
pub fn way_of(n: u64, chunk: ChunkNumber) -> Way
    requires { ChunkOf n chunk.0 }
    ensures { WayOf n chunk.0 result }
{
    let count = packet::sibling_count(n, chunk);
    let above = above_indexes(chunk, count);
    let beside = packet::sibling_indexes(chunk, count);
    let others = packet::other_count(n, chunk);
    let place = packet::root_place(n, chunk);
    let roots = packet::other_indexes(n, place);
    let up = count as usize;
    Way {
        up,
        above,
        beside,
        others,
        roots,
    }
}

// An entry as a row of its own.
pub fn entry_row(node: Node) -> [u8; 40]
    ensures { result ≡ entry_bytes (entry_of node) }
{
    let mut row = [0u8; 40];
    packet::put_entry(&mut row, 0, &node.hash, node.size);
    row
}
