// The way from a chunk up to its root: which root it is, and how many siblings and other roots there are. All of these are inner.
ghost use Rattle.std.specs.Prelude.{◌≡◌, ◌-◌, ◌≤◌, ◌<◌, length};
ghost use Rattle.tree_index.specs.Tree.{roots};
ghost use Rattle.tree_index.specs.Numbers.{numbers};
ghost use Rattle.file_format.specs.RootsByValue.{padded};
ghost use Rattle.packet.specs.Packet as packets;
ghost use Rattle.packet.specs.Packet.{siblings, other_roots, place_above};
ghost use Rattle.packet.specs.Inner.{ChunkOf, skipped, sibling_row, other_row};

use number_types::{ChunkNumber, TreeIndex};

// Inner: which of the roots, counted from the left, stands above a chunk; their count where none does.
pub fn root_place(n: u64, chunk: ChunkNumber) -> usize
    requires { n ≤ 1048576 }
    ensures { result ≡ place_above (roots n) chunk.0 }
{
    let count = tree_index::root_count(n);
    let indexes = tree_index::root_indexes(n);
    for (j, &i) in indexes[0..count].iter().enumerate() {
        if !tree_index::ends_before(i, chunk) {
            return j;
        }
    }
    count
}

// Inner: how many siblings lie on the way up from a chunk: the depth of the root above it.
pub fn sibling_count(n: u64, chunk: ChunkNumber) -> u32
    requires { ChunkOf n chunk.0 }
    ensures same { result ≡ length (siblings n chunk.0) }
    ensures few { result ≤ 20 }
{
    let indexes = tree_index::root_indexes(n);
    let place = root_place(n, chunk);
    tree_index::depth(indexes[place])
}

// Inner: how many roots there are besides the one above a chunk.
pub fn other_count(n: u64, chunk: ChunkNumber) -> usize
    requires { ChunkOf n chunk.0 }
    ensures same { result ≡ length (other_roots n chunk.0) }
    ensures few { result ≤ 19 }
{
    tree_index::root_count(n) - 1
}

// Inner: the block beside the block k under one parent.
fn beside(k: u64) -> u64
    requires { k < 8388607 }
    ensures { result ≡ packets.beside k }
{
    if k % 2 == 0 {
        return k + 1;
    }
    k - 1
}

// Inner: the siblings on the way up from a chunk, from the leaf upward, and zeros behind them.
pub fn sibling_indexes(chunk: ChunkNumber, count: u32) -> [TreeIndex; 20]
    requires { (chunk.0 < 1048576) × (count ≤ 20) }
    ensures { numbers result ≡ padded 0 count (sibling_row chunk.0 count) }
{
    let mut found = [TreeIndex(0); 20];
    for h in 0..count {
        let k = beside(tree_index::block_over(chunk, h));
        found[h as usize] = tree_index::node_index(h, k);
    }
    found
}

// The place of the j-th of the others, where a place is left out. Inner.
fn skipping(place: usize, j: usize) -> usize
    requires { j < 20 }
    ensures { result ≡ skipped place j }
{
    if j < place {
        return j;
    }
    j + 1
}

// Inner: the roots but the one at a place, from the left, and zeros behind them.
pub fn other_indexes(n: u64, place: usize) -> [TreeIndex; 20]
    requires { (n ≤ 1048576) × (place < length (roots n)) }
    ensures { numbers result ≡ padded 0 (length (roots n) - 1) (other_row (roots n) place (length (roots n) - 1)) }
{
    let indexes = tree_index::root_indexes(n);
    let count = tree_index::root_count(n) - 1;
    let mut found = [TreeIndex(0); 20];
    for j in 0..count {
        found[j] = indexes[skipping(place, j)];
    }
    found
}
