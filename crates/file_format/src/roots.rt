// The stored roots of the first n chunks, by value: how many they are, their indexes and lengths, and beside them their hashes.
ghost use Rattle.std.specs.Prelude.{◌≡◌, map, ◌+◌, ◌*◌, ◌≤◌, length, take, eqb};
ghost use Rattle.byte_strings.specs.Lists.{put, zeros, total};
ghost use Rattle.tree_index.specs.Tree.{roots as roots_of};
ghost use Rattle.tree_index.specs.Numbers.{numbers};
ghost use Rattle.blake2b.specs.Hash.{node_hash};
ghost use Rattle.file_format.specs.Messages.{root_item, root_message};
ghost use Rattle.file_format.specs.Stored.{stored_hash, stored_root_sizes, stored_root_message};
ghost use Rattle.file_format.specs.Inner.{EntriesIn, RootsIn};
ghost use Rattle.file_format.specs.RootsByValue.{padded, sizes_at, hashes_at, items_of, RootsOf};

use number_types::TreeIndex;

// At most 20 roots from the left; behind them the arrays hold zeros.
#[derive(Clone, Copy)]
pub struct Roots {
    pub count: usize,
    pub indexes: [TreeIndex; 20],
    pub sizes: [u64; 20],
}

// Inner: the lengths stored at the first indexes of an array.
fn sizes_at(tree: &[u8], indexes: [TreeIndex; 20], count: usize) -> [u64; 20]
    requires { EntriesIn tree.now (numbers indexes) count }
    ensures { result ≡ padded 0 count (sizes_at tree.now (numbers indexes) count) }
{
    let mut sizes = [0u64; 20];
    for j in 0..count {
        sizes[j] = super::entries::stored_size(tree, indexes[j]);
    }
    sizes
}

// Inner: the hashes stored at the first indexes of an array. One function for this and for the lengths would take the reading as a closure, and its contract
// would say of any closure what it gives, which is longer than this loop.
fn hashes_at(tree: &[u8], indexes: [TreeIndex; 20], count: usize) -> [[u8; 32]; 20]
    requires { EntriesIn tree.now (numbers indexes) count }
    ensures { result ≡ padded (zeros 32) count (hashes_at tree.now (numbers indexes) count) }
{
    let mut hashes = [[0u8; 32]; 20];
    for j in 0..count {
        hashes[j] = super::entries::stored_hash(tree, indexes[j]);
    }
    hashes
}

// Inner: the stored roots of the first n chunks, without their hashes.
#[tactic(auto, using(crate::proofs::ByValue::sizes_roots, crate::proofs::ByValue::as_padded))]
pub fn stored_roots(tree: &[u8], n: u64) -> Roots
    requires { RootsIn tree.now n }
    ensures { RootsOf tree.now n result }
{
    let count = tree_index::root_count(n);
    let indexes = tree_index::root_indexes(n);
    let sizes = sizes_at(tree, indexes, count);
    Roots {
        count,
        indexes,
        sizes,
    }
}

// Inner: the hashes of the stored roots of the first n chunks, and zeros behind them.
#[tactic(auto, using(crate::proofs::ByValue::hashes_roots))]
pub fn stored_root_hashes(tree: &[u8], n: u64) -> [[u8; 32]; 20]
    requires { RootsIn tree.now n }
    ensures { result ≡ padded (zeros 32) (length (roots_of n)) (map (stored_hash tree.now) (roots_of n)) }
{
    let count = tree_index::root_count(n);
    let indexes = tree_index::root_indexes(n);
    hashes_at(tree, indexes, count)
}

// Inner: the item of one root at its place in the root message. That a hash has 32 bytes, which its type says, is handed on to the
// loop that puts the items one behind the other.
#[tactic(auto, using(crate::proofs::Places::written_item))]
fn put_item(message: &mut [u8], at: usize, hash: &[u8; 32], index: TreeIndex, size: u64)
    requires { at + 48 ≤ length message.old }
    ensures placed { message.new ≡ put message.old at (root_item hash.now index.0 size) }
    ensures whole { length hash.now ≡ 32 }
{
    byte_strings::copy_to(message, at, hash);
    let place = byte_strings::be64(index.0);
    byte_strings::copy_to(message, at + 32, &place);
    let length = byte_strings::be64(size);
    byte_strings::copy_to(message, at + 40, &length);
}

// Inner: the root message, "02, then for each root from the left its hash, 8-byte tree index and 8-byte length", at the front of an
// array that has room for 20 roots.
#[tactic(auto, using(crate::proofs::ByValue::items_end))]
fn root_message(roots: Roots, hashes: [[u8; 32]; 20]) -> [u8; 961]
    requires { roots.count ≤ 20 }
    ensures { take (1 + 48 * roots.count) result ≡ root_message (items_of hashes (numbers roots.indexes) roots.sizes roots.count) }
{
    let mut message = [2u8; 961];
    for j in 0..roots.count {
        put_item(
            &mut message,
            1 + 48 * j,
            &hashes[j],
            roots.indexes[j],
            roots.sizes[j],
        );
    }
    message
}

// Inner: the hash of the root message, under the empty key.
#[tactic(auto, using(blake2b::proofs::Laws::node_keyless, crate::proofs::ByValue::front_hashed))]
pub fn root_hash(roots: Roots, hashes: [[u8; 32]; 20]) -> [u8; 32]
    requires { roots.count ≤ 20 }
    ensures { result ≡ node_hash (root_message (items_of hashes (numbers roots.indexes) roots.sizes roots.count)) }
{
    let message = root_message(roots, hashes);
    let end = 1 + 48 * roots.count;
    blake2b::hash_parts(b"", b"", &message[0..end])
}

// Inner: the root message that the stored roots of the first n chunks give, at the front of an array.
#[tactic(auto, using(crate::proofs::ByValue::items_roots, crate::proofs::ByValue::from_padded, tree_index::proofs::Roots::length_roots_le))]
pub fn stored_root_message(tree: &[u8], n: u64) -> [u8; 961]
    requires { RootsIn tree.now n }
    ensures { take (1 + 48 * length (roots_of n)) result ≡ stored_root_message tree.now n }
{
    let roots = stored_roots(tree, n);
    let hashes = stored_root_hashes(tree, n);
    root_message(roots, hashes)
}

// Inner: the root hash that the stored roots of the first n chunks give.
#[tactic(auto, using(crate::proofs::ByValue::items_roots, crate::proofs::ByValue::from_padded, tree_index::proofs::Roots::length_roots_le))]
pub fn stored_root_hash(tree: &[u8], n: u64) -> [u8; 32]
    requires { RootsIn tree.now n }
    ensures { result ≡ node_hash (stored_root_message tree.now n) }
{
    let roots = stored_roots(tree, n);
    let hashes = stored_root_hashes(tree, n);
    root_hash(roots, hashes)
}

// Inner: whether the lengths of the roots add up to a size, as whole numbers: what is left of the size is never less than 0.
#[tactic(auto, using(crate::proofs::ByValue::total_next), unfolding(byte_strings::specs::Lists::total))]
fn sizes_add_up(roots: Roots, size: u64) -> bool
    requires { roots.count ≤ 20 }
    ensures { result ≡ eqb (total (take roots.count roots.sizes)) size }
{
    // Lent out of `roots` itself, all of its arrays would be kept in memory.
    let sizes = roots.sizes;
    let mut left = size;
    for here in &sizes[0..roots.count] {
        let Some(rest) = left.checked_sub(*here) else {
            return false;
        };
        left = rest;
    }
    left == 0
}

// Inner: whether the stored root lengths of the first n chunks add up to a size.
#[tactic(auto, using(crate::proofs::ByValue::total_roots, tree_index::proofs::Roots::length_roots_le))]
pub fn adds_up(tree: &[u8], n: u64, size: u64) -> bool
    requires { RootsIn tree.now n }
    ensures { result ≡ eqb (total (stored_root_sizes tree.now n)) size }
{
    let roots = stored_roots(tree, n);
    sizes_add_up(roots, size)
}
