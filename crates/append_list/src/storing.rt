// The part of a list's append that writes, once all checks are passed: each file by itself, the root message hashed once at the end.
ghost use Rattle.std.specs.Prelude.{◌≡◌, ◌+◌, ◌-◌, ◌*◌, ◌/◌, ◌≤◌, ◌<◌, length, drop};
ghost use Rattle.byte_strings.specs.Lists.{part, put, zeros};
ghost use Rattle.bitfield.specs.Append.{bits_place};
ghost use Rattle.blake2b.specs.Hash.{node_hash};
ghost use Rattle.file_format.specs.Sizes.{used_signatures};
ghost use Rattle.writing.specs.Append.{appended_tree};
ghost use Rattle.append_list.specs.Chunks.{chunks_of};
ghost use Rattle.append_list.specs.Inner.{tree_with, bits_with, bits_next, LeafFits, LeavesFit, BitsFit, StoreFits, StorePost};

use writing::Node;

// Inner: the chunk n, which lies in the data from `at` to `end`, into the tree. It is hashed where it lies.
fn add_chunk(tree: &mut [u8], content: &[u8], n: u64, at: usize, end: usize)
    requires { LeafFits tree.old content.now n at end }
    ensures { tree.new ≡ appended_tree node_hash tree.old n (part content.now at (end - at)) }
{
    let hash = file_format::hashes::leaf_hash(&content[at..end]);
    let size = (end - at) as u64;
    writing::add_leaf(tree, n, Node { hash, size });
}

// Inner: all chunks, which lie in the data from `start` on, into the tree.
fn add_leaves(tree: &mut [u8], content: &[u8], n: u64, start: usize, lengths: &[u64])
    requires { LeavesFit tree.old content.now n start lengths.now }
    ensures { tree.new ≡
        tree_with node_hash tree.old n (chunks_of lengths.now (drop start content.now)) }
{
    let mut at = start;
    for (j, &length) in lengths.iter().enumerate() {
        let end = at + (length as usize);
        add_chunk(tree, content, n + (j as u64), at, end);
        at = end;
    }
}

// Inner: the bits of the chunk n, and the Index of its entry where no chunk behind it goes there: it is the last of the list, or of its entry.
fn add_bit(bitfield: &mut [u8], n: u64, last: bool)
    requires { (n < 1048576) × (bits_place (n / 8192 + 1) ≤ length bitfield.old) }
    ensures { bitfield.new ≡ bits_next bitfield.old n last }
{
    let c = number_types::chunk_behind(n);
    bitfield::set_bits(bitfield, c);
    if last {
        bitfield::make_index(bitfield, c);
        return;
    }
    if (n + 1) % 8192 == 0 {
        bitfield::make_index(bitfield, c);
    }
}

// Inner: the bits of k chunks behind n. The Index of an entry is made once, behind its last data bit. A completed parent's bit may lie in an
// earlier entry, whose Index, which follows from the data bits, it leaves.
fn add_bits(bitfield: &mut [u8], n: u64, k: u64)
    requires { BitsFit bitfield.old n k }
    ensures { bitfield.new ≡ bits_with bitfield.old n k }
{
    let end = n + k;
    for i in n..end {
        add_bit(bitfield, i, i + 1 == end);
    }
}

// Inner: the signatures of all chunks but the last, 64 zero bytes each.
#[tactic(auto, unfolding(file_format::specs::Sizes::used_signatures))]
fn add_zeros(signatures: &mut [u8], n: u64, k: usize)
    requires { (1 ≤ k) × (n + k ≤ 1048576) × (used_signatures (n + k - 1) ≤ length signatures.old) }
    ensures { signatures.new ≡ put signatures.old (used_signatures n) (zeros (64 * (k - 1))) }
{
    let at = file_format::sizes::used_signatures(n);
    byte_strings::clear(signatures, at, 64 * (k - 1));
}

// Inner: the bytes into the data, their chunks into the tree and the bitfield, and the zero signatures; the new root hash.
pub fn store(
    tree: &mut [u8],
    signatures: &mut [u8],
    bitfield: &mut [u8],
    content: &mut [u8],
    n: u64,
    size: u64,
    lengths: &[u64],
    bytes: &[u8],
) -> [u8; 32]
    requires { StoreFits tree.old signatures.old bitfield.old content.old n size lengths.now bytes.now }
    ensures { StorePost tree.old signatures.old bitfield.old content.old n size
        lengths.now bytes.now result tree.new signatures.new bitfield.new
        content.new }
{
    let start = size as usize;
    let k = lengths.len();
    byte_strings::copy_to(content, start, bytes);
    add_leaves(tree, content, n, start, lengths);
    add_zeros(signatures, n, k);
    add_bits(bitfield, n, k as u64);
    file_format::roots::stored_root_hash(tree, n + (k as u64))
}
