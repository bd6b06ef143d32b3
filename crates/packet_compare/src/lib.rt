// A walk along two packets of one chunk: "the first such pair from the leaf upward, by its tree index or as "at the roots"". Where the chunks
// differ, the messages of each step differ as long as the hashes below did, so the first step with one hash is the pair, and no message is
// compared. It reads the lent bytes and changes nothing.
#![tactic(auto)]

ghost use Rattle.std.specs.Prelude.{◌≡◌};
ghost use Rattle.blake2b.specs.Hash.{node_hash};
ghost use Rattle.file_format.specs.Entries.{parent_of};
ghost use Rattle.packet.specs.Check.{packet_chunk, entry_in, ordered};
ghost use Rattle.packet.specs.Inner.{entry_of};
ghost use Rattle.packet_compare.specs.Walk.{walk as walkAlong, compare_packets};
ghost use Rattle.packet_compare.specs.Meaning.{walk_of, told};
ghost use Rattle.packet_compare.specs.Inner.{Framed, Steppable, Climbable2, up_along, Accepted2};

use compare::CompareError;
use number_types::{ChunkNumber, TreeIndex};
use packet::Node;

// What the walk finds: "same chunk", or two different messages with one hash, at a tree index or at the roots.
#[derive(Clone, Copy)]
pub enum Walked {
    SameChunk,
    AtIndex(TreeIndex),
    AtRoots,
}

// Inner: the chunk's part of a packet.
fn chunk_part(lent: &[u8]) -> &[u8]
    requires { Framed lent.now }
    ensures { result.now ≡ packet_chunk lent.now }
{
    let end = 4 + (byte_strings::read_be32(lent, 0) as usize);
    &lent[4..end]
}

// Inner: the parent of the block k and of the block beside it, whose entry stands at a place within a packet.
fn above(lent: &[u8], at: usize, k: u64, node: Node) -> Node
    requires { Steppable lent.now at node.size }
    ensures { entry_of result ≡ ordered k (parent_of node_hash) (entry_of node) (entry_in lent.now at) }
{
    packet::step_up(k, node, packet::entry_node(lent, at))
}

// Inner: up from two leaves with different hashes along the siblings of both, to the first step with one hash.
fn climb(
    first: &[u8],
    at: usize,
    leaf: Node,
    second: &[u8],
    at2: usize,
    leaf2: Node,
    count: usize,
    chunk: ChunkNumber,
) -> Walked
    requires { Climbable2 first.now at (entry_of leaf) second.now at2 (entry_of leaf2) count chunk.0 }
    ensures { walk_of result ≡ up_along first.now at (entry_of leaf) second.now at2 (entry_of leaf2) count chunk.0 }
{
    let mut node = leaf;
    let mut node2 = leaf2;
    let mut k = tree_index::block_over(chunk, 0);
    for j in 0..count {
        node = above(first, at + 40 * j, k, node);
        node2 = above(second, at2 + 40 * j, k, node2);
        k /= 2;
        if byte_strings::same(&node.hash, &node2.hash) {
            return Walked::AtIndex(tree_index::node_index(j as u32 + 1, k));
        }
    }
    Walked::AtRoots
}

// Inner: the walk along two packets that pass the check under one root hash.
fn walk(first: &[u8], second: &[u8], n: u64, chunk: ChunkNumber) -> Walked
    requires { Accepted2 first.now second.now n chunk.0 }
    ensures { walk_of result ≡ walkAlong node_hash first.now second.now n chunk.0 }
{
    let part = chunk_part(first);
    let part2 = chunk_part(second);
    if byte_strings::same(part, part2) {
        return Walked::SameChunk;
    }
    let leaf = packet::leaf_node(part);
    let leaf2 = packet::leaf_node(part2);
    if byte_strings::same(&leaf.hash, &leaf2.hash) {
        return Walked::AtIndex(tree_index::leaf_index(chunk));
    }
    let at = 4 + part.len() + 1;
    let at2 = 4 + part2.len() + 1;
    let count = packet::sibling_count(n, chunk) as usize;
    climb(first, at, leaf, second, at2, leaf2, count, chunk)
}

// The check of the first packet, then of the second, then the walk along both.
pub fn compare_packets(
    first: &[u8],
    second: &[u8],
    n: u64,
    chunk: ChunkNumber,
    root: &[u8; 32],
) -> Result<Walked, CompareError>
    ensures { told result ≡ compare_packets node_hash first.now second.now n chunk.0 root.now }
{
    match packet::check_answer(first, n, chunk, root) {
        Err(refusal) => Err(CompareError::First(refusal)),
        Ok(()) => match packet::check_answer(second, n, chunk, root) {
            Err(refusal) => Err(CompareError::Second(refusal)),
            Ok(()) => Ok(walk(first, second, n, chunk)),
        },
    }
}
