// The check of a packet: "takes packet, n, i and root hash; it answers the chunk's part of the packet unless 2, 9, 12 or 13 holds".
// Any bytes may be lent as a packet: its counts and lengths are judged before anything is read at them.
ghost use Rattle.std.specs.Prelude.{◌≡◌, ◌++◌, true, ◌+◌, ◌-◌, ◌*◌, ◌≤◌, ◌<◌, length};
ghost use Rattle.answer_types.specs.Verdict.{unless_refused};
ghost use Rattle.answer_types.specs.Meaning.{said};
ghost use Rattle.byte_strings.specs.Lists.{put, total, zeros};
ghost use Rattle.byte_strings.specs.Numbers.{be};
ghost use Rattle.blake2b.specs.Hash.{node_hash};
ghost use Rattle.file_format.specs.Entries.{hole, leaf, parent_of};
ghost use Rattle.file_format.specs.RootsByValue.{padded};
ghost use Rattle.packet.specs.Check.{shape_right, entry_in, entries_in, ordered, steps_above, root_right, packet_verdict, checked_chunk};
ghost use Rattle.packet.specs.Inner.{ChunkOf, turn_entry, hash_row, size_row, message_with, sizes_in, Summed, entry_of, RowIn, TurnIn, TurnsIn, OthersIn, Climbable, climbed, Shaped};
ghost use Rattle.packet.specs.Inner.{path_row, handed, unhanded, handed_on};

use answer_types::Refusal;
use file_format::roots::Roots;
use number_types::ChunkNumber;

// An entry by value.
#[derive(Clone, Copy)]
pub struct Node {
    pub hash: [u8; 32],
    pub size: u64,
}

// What a climb leads to: the root above a chunk, and the parents on the way to it, one behind the other.
#[derive(Clone, Copy)]
pub struct Ascent {
    pub top: Node,
    pub row: [u8; 800],
}

// An answer, and what was hashed for it: the leaf and the parents on the way.
#[derive(Clone, Copy)]
pub struct Checked {
    pub answer: Result<(), Refusal>,
    pub leaf: Node,
    pub row: [u8; 800],
}

// The same of the root hash alone.
#[derive(Clone, Copy)]
struct Hashed {
    right: bool,
    leaf: Node,
    row: [u8; 800],
}

// Inner: "12. The packet's counts aren't those of n and i, its chunk is over 65,536, or bytes lack or remain."
fn shape_right(packet: &[u8], n: u64, chunk: ChunkNumber) -> bool
    requires { ChunkOf n chunk.0 }
    ensures { result ≡ shape_right packet.now n chunk.0 }
{
    let up = super::path::sibling_count(n, chunk) as usize;
    let others = super::path::other_count(n, chunk);
    if packet.len() < 4 {
        return false;
    }
    let length = byte_strings::read_be32(packet, 0);
    if 65536 < length {
        return false;
    }
    let first = 4 + (length as usize);
    let second = first + 1 + 40 * up;
    if packet.len() != second + 1 + 40 * others {
        return false;
    }
    if usize::from(packet[first]) != up {
        return false;
    }
    usize::from(packet[second]) == others
}

// Inner: the hash of the entry at a place within a packet.
fn entry_hash(packet: &[u8], at: usize) -> [u8; 32]
    requires { at + 40 ≤ length packet.now }
    ensures { result ≡ (entry_in packet.now at).hash }
{
    let mut hash = [0u8; 32];
    hash.copy_from_slice(&packet[at..at + 32]);
    hash
}

// Inner: the length of the entry at a place within a packet.
fn entry_size(packet: &[u8], at: usize) -> u64
    requires { at + 40 ≤ length packet.now }
    ensures { result ≡ (entry_in packet.now at).size }
{
    byte_strings::read_be64(packet, at + 32)
}

// Inner: the lengths of a row of entries added to a sum, as whole numbers: each is compared with what is left up to the bound before it is
// added, so that nothing wraps.
pub fn add_lengths(packet: &[u8], at: usize, count: usize, from: u64) -> u64
    requires { RowIn packet.now at count × from ≤ 68719476737 }
    ensures { Summed (from + total (sizes_in packet.now at count)) result }
{
    let mut sum = from;
    for j in 0..count {
        let here = entry_size(packet, at + 40 * j);
        if 68719476737 - sum <= here {
            return 68719476737;
        }
        sum += here;
    }
    sum
}

// Inner: the entry at a place within a packet.
pub fn entry_node(packet: &[u8], at: usize) -> Node
    requires { at + 40 ≤ length packet.now }
    ensures { entry_of result ≡ entry_in packet.now at }
{
    Node {
        hash: entry_hash(packet, at),
        size: entry_size(packet, at),
    }
}

// An entry where there is none: zeros.
fn no_node() -> Node
    ensures { entry_of result ≡ hole }
{
    Node {
        hash: [0u8; 32],
        size: 0,
    }
}

// The leaf of a chunk.
pub fn leaf_node(chunk: &[u8]) -> Node
    ensures { entry_of result ≡ leaf node_hash chunk.now }
{
    Node {
        hash: file_format::hashes::leaf_hash(chunk),
        size: chunk.len() as u64,
    }
}

// Inner: the parent of the block k and of the block beside it.
pub fn step_up(k: u64, node: Node, beside: Node) -> Node
    requires { node.size + beside.size ≤ 68719476736 }
    ensures { entry_of result ≡ ordered k (parent_of node_hash) (entry_of node) (entry_of beside) }
{
    let size = node.size + beside.size;
    let hash = if k % 2 == 0 {
        file_format::hashes::parent_hash(size, &node.hash, &beside.hash)
    } else {
        file_format::hashes::parent_hash(size, &beside.hash, &node.hash)
    };
    Node { hash, size }
}

// Inner: an entry at a place of a row. That its bytes are 40, which the type of the hash says, is handed on to whoever puts more behind it.
pub fn put_entry(row: &mut [u8], at: usize, hash: &[u8; 32], size: u64)
    requires { at + 40 ≤ length row.old }
    ensures placed { row.new ≡ put row.old at (hash.now ++ be 8 size) }
    ensures whole { length (hash.now ++ be 8 size) ≡ 40 }
{
    let length = byte_strings::be64(size);
    byte_strings::copy_to(row, at, hash);
    byte_strings::copy_to(row, at + 32, &length);
}

// Inner: from a leaf up along its siblings, to the root above it.
fn climb(packet: &[u8], at: usize, count: usize, chunk: ChunkNumber, leaf: Node) -> Ascent
    requires { Climbable packet.now at count leaf.size }
    ensures above { entry_of result.top ≡ climbed node_hash chunk.0 (entry_of leaf) (entries_in packet.now at count) }
    ensures passed { result.row ≡ path_row (steps_above node_hash 0 chunk.0 (entry_of leaf) (entries_in packet.now at count)) }
{
    let mut row = [0u8; 800];
    let mut node = leaf;
    let mut k = tree_index::block_over(chunk, 0);
    for j in 0..count {
        let beside = entry_node(packet, at + 40 * j);
        node = step_up(k, node, beside);
        put_entry(&mut row, 40 * j, &node.hash, node.size);
        k /= 2;
    }
    Ascent { top: node, row }
}

// Inner: the entry of the root j, where `node` stands for the root at a place and the others lie in the packet.
fn in_turn(packet: &[u8], at: usize, place: usize, node: Node, j: usize) -> Node
    requires { TurnIn packet.now at place j }
    ensures { entry_of result ≡ turn_entry packet.now at place (entry_of node) j }
{
    if j < place {
        return entry_node(packet, at + 40 * j);
    }
    if j == place {
        return node;
    }
    entry_node(packet, at + 40 * (j - 1))
}

// Inner: the hashes and the lengths of all roots, the one above the chunk in its turn among the others, and zeros behind them. Both are filled as they
// are read: an array of entries would be taken apart in two more passes over all twenty places.
fn roots_in_turn(
    packet: &[u8],
    at: usize,
    place: usize,
    node: Node,
    count: usize,
) -> ([[u8; 32]; 20], [u64; 20])
    requires { TurnsIn packet.now at place count }
    ensures hashes { result.0 ≡ padded (zeros 32) count (hash_row packet.now at place (entry_of node) count) }
    ensures sizes { result.1 ≡ padded 0 count (size_row packet.now at place (entry_of node) count) }
{
    let mut hashes = [[0u8; 32]; 20];
    let mut sizes = [0u64; 20];
    for j in 0..count {
        let entry = in_turn(packet, at, place, node, j);
        let hash = entry.hash;
        hashes[j] = hash;
        sizes[j] = entry.size;
    }
    (hashes, sizes)
}

// Inner: the root hash that the root above a chunk and the other roots in a packet give.
fn root_hash_with(packet: &[u8], at: usize, n: u64, chunk: ChunkNumber, node: Node) -> [u8; 32]
    requires { OthersIn packet.now at n chunk.0 }
    ensures { result ≡ node_hash (message_with packet.now at n chunk.0 (entry_of node)) }
{
    let place = super::path::root_place(n, chunk);
    let count = tree_index::root_count(n);
    let indexes = tree_index::root_indexes(n);
    let (hashes, sizes) = roots_in_turn(packet, at, place, node, count);
    let roots = Roots {
        count,
        indexes,
        sizes,
    };
    file_format::roots::root_hash(roots, hashes)
}

// Inner: "13. The packet's lengths add up to over 68,719,476,736, or its root hash is another." The sum is judged first, so that no
// parent's length wraps.
fn root_right(packet: &[u8], n: u64, chunk: ChunkNumber, root: &[u8; 32]) -> Hashed
    requires { Shaped packet.now n chunk.0 }
    ensures judged { result.right ≡ root_right node_hash packet.now n chunk.0 root.now }
    ensures led { result.right ≡ true → handed result.leaf result.row ≡ handed_on node_hash packet.now n chunk.0 }
{
    let up = super::path::sibling_count(n, chunk) as usize;
    let others = super::path::other_count(n, chunk);
    let length = byte_strings::read_be32(packet, 0);
    let first = 4 + (length as usize);
    let second = first + 1 + 40 * up;
    let sum = add_lengths(packet, first + 1, up, length);
    let whole = add_lengths(packet, second + 1, others, sum);
    if 68719476736 < whole {
        return Hashed {
            right: false,
            leaf: no_node(),
            row: [0u8; 800],
        };
    }
    let leaf = leaf_node(&packet[4..first]);
    let ascent = climb(packet, first + 1, up, chunk, leaf);
    let top = ascent.top;
    let row = ascent.row;
    let hash = root_hash_with(packet, second + 1, n, chunk, top);
    let right = byte_strings::same(&hash, root);
    Hashed { right, leaf, row }
}

// An answer that hands on nothing.
pub fn unhashed(answer: Result<(), Refusal>) -> Checked
    ensures same { result.answer ≡ answer }
    ensures empty { handed result.leaf result.row ≡ unhanded }
{
    Checked {
        answer,
        leaf: no_node(),
        row: [0u8; 800],
    }
}

// Whether a packet passes the check, or its refusal, with what was hashed for it, so that whoever goes on need not hash it again; zeros
// after a refusal.
pub fn check_hashing(packet: &[u8], n: u64, chunk: ChunkNumber, root: &[u8; 32]) -> Checked
    ensures judged { said result.answer ≡ packet_verdict node_hash packet.now n chunk.0 root.now }
    ensures led { handed result.leaf result.row ≡
        unless_refused (packet_verdict node_hash packet.now n chunk.0 root.now)
        (handed_on node_hash packet.now n chunk.0) unhanded }
{
    if 1048576 < n {
        return unhashed(answer_types::refuse(2));
    }
    if n <= chunk.0 {
        return unhashed(answer_types::refuse(9));
    }
    if !shape_right(packet, n, chunk) {
        return unhashed(answer_types::refuse(12));
    }
    let hashed = root_right(packet, n, chunk, root);
    if !hashed.right {
        return unhashed(answer_types::refuse(13));
    }
    let leaf = hashed.leaf;
    let row = hashed.row;
    Checked {
        answer: Ok(()),
        leaf,
        row,
    }
}

// Whether a packet passes the check, or its refusal.
pub fn check_answer(
    packet: &[u8],
    n: u64,
    chunk: ChunkNumber,
    root: &[u8; 32],
) -> Result<(), Refusal>
    ensures { said result ≡ packet_verdict node_hash packet.now n chunk.0 root.now }
{
    let checked = check_hashing(packet, n, chunk, root);
    checked.answer
}

// The chunk's part of a packet that passes the check; nothing after a refusal, which `check_answer` tells.
pub fn check<'a>(packet: &'a [u8], n: u64, chunk: ChunkNumber, root: &[u8; 32]) -> &'a [u8]
    ensures { result.now ≡ checked_chunk node_hash packet.now n chunk.0 root.now }
{
    match check_answer(packet, n, chunk, root) {
        Err(_) => &packet[0..0],
        Ok(()) => {
            let end = 4 + (byte_strings::read_be32(packet, 0) as usize);
            &packet[4..end]
        }
    }
}
