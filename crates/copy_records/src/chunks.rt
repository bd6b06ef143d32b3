// The record of a chunk of a copy: the read's own refusals, then number 15 at the leaf's tree index.
ghost use Rattle.blake2b.specs.Hash.{node_hash};
ghost use Rattle.copy_checks.specs.Copy.{copy_of};
ghost use Rattle.std.specs.Prelude.{◌≡◌};
ghost use Rattle.record_format.specs.Post.{header_told};
ghost use Rattle.record_node.specs.Post.{node_told};
ghost use Rattle.copy_records.specs.Records.{copy_header, copy_node};

use answer_types::Refusal;
use number_types::ChunkNumber;
use record_fields::Part;
use record_node::Node;

// The Header that a chunk is, as a rule chunk 0: where its content bytes lie in the chunk.
pub fn header_of(
    tree: &[u8],
    bitfield: &[u8],
    content: &[u8],
    n: u64,
    size: u64,
    chunk: ChunkNumber,
) -> Result<Part, Refusal>
    ensures { header_told result ≡ copy_header node_hash (copy_of tree.now bitfield.now content.now n size) chunk.0 }
{
    let read = copy_lookup::verify(tree, bitfield, content, n, size, chunk);
    record_find::header_behind(read, content, chunk)
}

// The Node that a chunk is: its fields, with parts of the chunk.
pub fn node_of(
    tree: &[u8],
    bitfield: &[u8],
    content: &[u8],
    n: u64,
    size: u64,
    chunk: ChunkNumber,
) -> Result<Node, Refusal>
    ensures { node_told result
        ≡ copy_node node_hash (copy_of tree.now bitfield.now content.now n size) chunk.0 }
{
    let read = copy_lookup::verify(tree, bitfield, content, n, size, chunk);
    record_find::node_behind(read, content, chunk)
}
