// The record of a chunk of a register: the read's own refusals, then number 15 at the leaf's tree index.
ghost use Rattle.std.specs.Prelude.{◌≡◌, ◌<◌};
ghost use Rattle.answer_types.specs.Verdict.{tree, refused};
ghost use Rattle.answer_types.specs.Meaning.{refusal_of};
ghost use Rattle.tree_index.specs.Tree.{index};
ghost use Rattle.blake2b.specs.Hash.{node_hash};
ghost use Rattle.checks.specs.Lent.{register_of};
ghost use Rattle.lookup.specs.Meaning.{verified_of};
ghost use Rattle.record_format.specs.Post.{header_told};
ghost use Rattle.record_node.specs.Post.{node_told};
ghost use Rattle.record_find.specs.ChunkRecords.{compared_told, header_in, node_in};
ghost use Rattle.record_find.specs.Inner.{ReadIn, header_behind, node_behind, path_behind};

use answer_types::{Place, Refusal};
use lookup::Verified;
use number_types::ChunkNumber;
use record_fields::Part;
use record_node::Node;

// Inner: number 15 at the leaf of a chunk.
fn no_record(chunk: ChunkNumber) -> Refusal
    requires { chunk.0 < 2097152 }
    ensures { refusal_of result ≡ refused 15 (tree (index 0 chunk.0)) }
{
    let leaf = tree_index::leaf_index(chunk);
    Refusal {
        number: 15,
        place: Place::Tree(leaf),
    }
}

// Inner: the Header that a chunk is, behind its read.
pub fn header_behind(
    read: Result<Verified, Refusal>,
    content: &[u8],
    chunk: ChunkNumber,
) -> Result<Part, Refusal>
    requires { ReadIn content.now chunk.0 (verified_of read) }
    ensures { header_told result ≡ header_behind content.now chunk.0 (verified_of read) }
{
    let bytes = lookup::bytes_of(content, read);
    lookup::answer_of(read)?;
    match record_format::read_header(bytes) {
        Err(_) => Err(no_record(chunk)),
        Ok(part) => Ok(part),
    }
}

// Inner: the Node that a chunk is, behind its read.
pub fn node_behind(
    read: Result<Verified, Refusal>,
    content: &[u8],
    chunk: ChunkNumber,
) -> Result<Node, Refusal>
    requires { ReadIn content.now chunk.0 (verified_of read) }
    ensures { node_told result ≡ node_behind content.now chunk.0 (verified_of read) }
{
    let bytes = lookup::bytes_of(content, read);
    lookup::answer_of(read)?;
    match record_node::read_node(bytes) {
        Err(_) => Err(no_record(chunk)),
        Ok(node) => Ok(node),
    }
}

// Inner: whether the Node that a chunk is has a path, behind its read.
pub fn path_behind(
    read: Result<Verified, Refusal>,
    content: &[u8],
    chunk: ChunkNumber,
    path: &[u8],
) -> Result<bool, Refusal>
    requires { ReadIn content.now chunk.0 (verified_of read) }
    ensures { compared_told result ≡ path_behind content.now chunk.0 (verified_of read) path.now }
{
    let node = node_behind(read, content, chunk)?;
    let bytes = lookup::bytes_of(content, read);
    let part = node.path;
    let to = part.at + part.len;
    Ok(byte_strings::same(&bytes[part.at..to], path))
}

// The Header that a chunk is, as a rule chunk 0: where its content bytes lie in the chunk.
pub fn header_of(
    tree: &[u8],
    signatures: &[u8],
    bitfield: &[u8],
    content: &[u8],
    n: u64,
    s: u64,
    size: u64,
    chunk: ChunkNumber,
) -> Result<Part, Refusal>
    ensures { header_told result
        ≡ header_in node_hash
        (register_of tree.now signatures.now bitfield.now content.now n s size)
        chunk.0 }
{
    let read = lookup::verify(tree, signatures, bitfield, content, n, s, size, chunk);
    header_behind(read, content, chunk)
}

// The Node that a chunk is: its fields, with parts of the chunk.
pub fn node_of(
    tree: &[u8],
    signatures: &[u8],
    bitfield: &[u8],
    content: &[u8],
    n: u64,
    s: u64,
    size: u64,
    chunk: ChunkNumber,
) -> Result<Node, Refusal>
    ensures { node_told result
        ≡ node_in node_hash
        (register_of tree.now signatures.now bitfield.now content.now n s size)
        chunk.0 }
{
    let read = lookup::verify(tree, signatures, bitfield, content, n, s, size, chunk);
    node_behind(read, content, chunk)
}
