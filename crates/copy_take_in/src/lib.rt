// Taking in a packet: "writes leaf, siblings, parents on the way and roots with their tree bits, .. and the chunk at the start found from left
// siblings and left roots, sets its data bit and regenerates that entry's Index". Everything is judged before a byte is written.
#![tactic(auto)]

mod rows;
mod way;

ghost use Rattle.std.specs.Prelude.{◌≡◌, ◌+◌, ◌≤◌, eqb, length};
ghost use Rattle.answer_types.specs.Verdict.{unless_refused};
ghost use Rattle.answer_types.specs.Meaning.{said};
ghost use Rattle.tree_index.specs.Tree.{index};
ghost use Rattle.blake2b.specs.Hash.{node_hash};
ghost use Rattle.packet.specs.Check.{packet_total, siblings_place};
ghost use Rattle.packet.specs.Inner.{handed, unhanded, handed_on};
ghost use Rattle.copy_checks.specs.Copy.{copy_of, files_of, files_lent};
ghost use Rattle.lookup.specs.Unknown.{first_entry};
ghost use Rattle.copy_take_in.specs.TakeIn.{brought, packet_start, bytes_contradicted, index_if, contradiction, taken_in};
ghost use Rattle.copy_take_in.specs.Inner.{WayOf, WithGiven, Fits, Room, Held, Ready};
ghost use Rattle.copy_take_in.specs.Post.{TakePost, OwnPost, total_verdict, size_verdict};

use answer_types::Refusal;
use number_types::{ChunkNumber, TreeIndex};
use packet::{Checked, Node};
use way::Way;

// Inner: where the siblings of a packet begin, behind their count.
fn siblings_place(packet: &[u8]) -> usize
    requires { 4 ≤ length packet.now }
    ensures { result ≡ siblings_place packet.now + 1 }
{
    4 + (byte_strings::read_be32(packet, 0) as usize) + 1
}

// Inner: whether the lengths of a packet that passes the check add up to the data size.
fn total_right(packet: &[u8], n: u64, chunk: ChunkNumber, size: u64) -> bool
    requires { Fits packet.now n chunk.0 }
    ensures { result ≡ eqb (packet_total packet.now n chunk.0) size }
{
    let up = packet::sibling_count(n, chunk) as usize;
    let others = packet::other_count(n, chunk);
    let length = byte_strings::read_be32(packet, 0);
    let first = 4 + (length as usize) + 1;
    let second = first + 40 * up + 1;
    let sum = packet::add_lengths(packet, first, up, length);
    let whole = packet::add_lengths(packet, second, others, sum);
    whole == size
}

// A packet's own check and, behind it, its total; with what was hashed for it.
fn judge_packet(packet: &[u8], n: u64, size: u64, chunk: ChunkNumber, root: &[u8; 32]) -> Checked
    ensures judged { said result.answer ≡ total_verdict node_hash packet.now n size chunk.0 root.now }
    ensures led { handed result.leaf result.row ≡
        unless_refused (total_verdict node_hash packet.now n size chunk.0 root.now)
        (handed_on node_hash packet.now n chunk.0) unhanded }
{
    let checked = packet::check_hashing(packet, n, chunk, root);
    let answer = checked.answer;
    match answer {
        Err(refusal) => packet::unhashed(Err(refusal)),
        Ok(()) => {
            if total_right(packet, n, chunk, size) {
                checked
            } else {
                packet::unhashed(answer_types::refuse(6))
            }
        }
    }
}

// Everything but 19: the copy's own checks, the packet's, and the packet's total.
fn judge(
    tree: &[u8],
    bitfield: &[u8],
    content: &[u8],
    n: u64,
    size: u64,
    packet: &[u8],
    chunk: ChunkNumber,
    root: &[u8; 32],
) -> Checked
    ensures judged { said result.answer ≡
        size_verdict node_hash (copy_of tree.now bitfield.now content.now n size) packet.now
        chunk.0 root.now }
    ensures led { handed result.leaf result.row ≡
        unless_refused
        (size_verdict node_hash (copy_of tree.now bitfield.now content.now n size) packet.now
        chunk.0 root.now)
        (handed_on node_hash packet.now n chunk.0) unhanded }
{
    match copy_checks::judge_partly(tree, bitfield, content, n, size) {
        Err(refusal) => packet::unhashed(Err(refusal)),
        Ok(()) => judge_packet(packet, n, size, chunk, root),
    }
}

// Inner: where the packet's chunk starts in the data.
fn start_of(packet: &[u8], n: u64, chunk: ChunkNumber, way: Way) -> usize
    requires { Fits packet.now n chunk.0 × WayOf n chunk.0 way }
    ensures { result ≡ packet_start packet.now n chunk.0 }
{
    let leaf = tree_index::leaf_index(chunk);
    let up = way.up;
    let others = way.others;
    let beside = way.beside;
    let roots = way.roots;
    let first = siblings_place(packet);
    let second = first + 40 * up + 1;
    let sum = rows::left_in_row(packet, first, beside, up, leaf, 0);
    rows::left_in_row(packet, second, roots, others, leaf, sum) as usize
}

// Inner: where a chunk is held, its leaf, if the bytes at a start are others.
fn bytes_contradiction(
    bitfield: &[u8],
    content: &[u8],
    chunk: ChunkNumber,
    start: usize,
    bytes: &[u8],
) -> Option<TreeIndex>
    requires { Held bitfield.now content.now chunk.0 start bytes.now }
    ensures { first_entry result ≡
        index_if (bytes_contradicted bitfield.now content.now chunk.0 start bytes.now) (index 0 chunk.0) }
{
    if !bitfield::is_held(bitfield, chunk) {
        return None;
    }
    let end = start + bytes.len();
    if byte_strings::same(&content[start..end], bytes) {
        return None;
    }
    Some(tree_index::leaf_index(chunk))
}

// Inner: the lowest tree index at which a packet contradicts what a copy knows.
fn contradiction_of(
    tree: &[u8],
    bitfield: &[u8],
    content: &[u8],
    n: u64,
    packet: &[u8],
    chunk: ChunkNumber,
    way: Way,
    start: usize,
    row: &[u8],
    path: &[u8],
) -> Option<TreeIndex>
    requires { Ready tree.now bitfield.now content.now packet.now n chunk.0 way start row.now path.now }
    ensures { first_entry result ≡
        contradiction node_hash (copy_of tree.now bitfield.now content.now n 0) packet.now chunk.0 }
{
    let up = way.up;
    let others = way.others;
    let above = way.above;
    let beside = way.beside;
    let roots = way.roots;
    let leaf = tree_index::leaf_index(chunk);
    let first = siblings_place(packet);
    let second = first + 40 * up + 1;
    let end = first - 1;
    let bytes = bytes_contradiction(bitfield, content, chunk, start, &packet[4..end]);
    let own = rows::contradiction_at(tree, bitfield, leaf, row, 0);
    let low = copy_checks::lower_of(bytes, own);
    let upward = rows::lowest_in_row(tree, bitfield, path, 0, above, up, low);
    let sideways = rows::lowest_in_row(tree, bitfield, packet, first, beside, up, upward);
    rows::lowest_in_row(tree, bitfield, packet, second, roots, others, sideways)
}

// Inner: the entries that a packet brings, with their tree bits.
fn write_entries(
    tree: &mut [u8],
    bitfield: &mut [u8],
    content: &[u8],
    n: u64,
    packet: &[u8],
    chunk: ChunkNumber,
    way: Way,
    start: usize,
    row: &[u8],
    path: &[u8],
)
    requires { Ready tree.old bitfield.old content.now packet.now n chunk.0 way start row.now path.now }
    ensures { WithGiven tree.old bitfield.old (brought node_hash packet.now n chunk.0) tree.new
        bitfield.new }
{
    let up = way.up;
    let others = way.others;
    let above = way.above;
    let beside = way.beside;
    let roots = way.roots;
    let leaf = tree_index::leaf_index(chunk);
    let first = siblings_place(packet);
    let second = first + 40 * up + 1;
    rows::write_one(tree, bitfield, leaf, row, 0);
    rows::write_row(tree, bitfield, path, 0, above, up);
    rows::write_row(tree, bitfield, packet, first, beside, up);
    rows::write_row(tree, bitfield, packet, second, roots, others);
}

// Inner: all that a taking in writes.
fn write_all(
    tree: &mut [u8],
    bitfield: &mut [u8],
    content: &mut [u8],
    n: u64,
    packet: &[u8],
    chunk: ChunkNumber,
    way: Way,
    start: usize,
    row: &[u8],
    path: &[u8],
)
    requires { Ready tree.old bitfield.old content.old packet.now n chunk.0 way start row.now path.now }
    ensures { files_lent tree.new bitfield.new content.new ≡
        files_of
        (taken_in node_hash (copy_of tree.old bitfield.old content.old n 0) packet.now chunk.0) }
{
    let end = siblings_place(packet) - 1;
    write_entries(
        tree, bitfield, content, n, packet, chunk, way, start, row, path,
    );
    bitfield::hold_bits(bitfield, chunk);
    byte_strings::copy_to(content, start, &packet[4..end]);
}

// Inner: 19, or the packet is taken in. What the check hashed, the leaf and the parents on the way, is handed on.
fn take_checked(
    tree: &mut [u8],
    bitfield: &mut [u8],
    content: &mut [u8],
    n: u64,
    packet: &[u8],
    chunk: ChunkNumber,
    leaf: Node,
    path: &[u8],
) -> Result<(), Refusal>
    requires room { Room tree.old bitfield.old content.old packet.now n chunk.0 }
    requires led { handed leaf path.now ≡ handed_on node_hash packet.now n chunk.0 }
    ensures { OwnPost node_hash (copy_of tree.old bitfield.old content.old n 0) packet.now chunk.0
        (said result) (files_lent tree.new bitfield.new content.new) }
{
    let way = way::way_of(n, chunk);
    let start = start_of(packet, n, chunk, way);
    let row = way::entry_row(leaf);
    let found = contradiction_of(
        tree, bitfield, content, n, packet, chunk, way, start, &row, path,
    );
    match found {
        Some(i) => answer_types::refuse_entry(19, i),
        None => {
            write_all(
                tree, bitfield, content, n, packet, chunk, way, start, &row, path,
            );
            Ok(())
        }
    }
}

// A packet of a chunk is taken in, under a root hash.
pub fn take_in(
    tree: &mut [u8],
    bitfield: &mut [u8],
    content: &mut [u8],
    n: u64,
    size: u64,
    packet: &[u8],
    chunk: ChunkNumber,
    root: &[u8; 32],
) -> Result<(), Refusal>
    ensures { TakePost node_hash (copy_of tree.old bitfield.old content.old n size) packet.now chunk.0
        root.now (said result) (files_lent tree.new bitfield.new content.new) }
{
    let judged = judge(tree, bitfield, content, n, size, packet, chunk, root);
    let answer = judged.answer;
    let leaf = judged.leaf;
    let path = judged.row;
    answer?;
    take_checked(tree, bitfield, content, n, packet, chunk, leaf, &path)
}
