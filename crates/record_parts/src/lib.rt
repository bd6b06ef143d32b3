// The parts of a record as parts of the bytes lent: of bytes, or of a chunk of a register. Nothing after a refusal, whose number the readers
// tell (`record_format::read_header`, `record_node::read_node`, `record_find::header_of`, `record_find::node_of`), and nothing of a field that is absent, which they
// tell too.
#![tactic(auto)]

ghost use Rattle.std.specs.Prelude.{◌≡◌};
ghost use Rattle.blake2b.specs.Hash.{node_hash};
ghost use Rattle.checks.specs.Lent.{register_of};
ghost use Rattle.lookup.specs.Read.{read_part};
ghost use Rattle.record_fields.specs.Fronts.{or_nothing};
ghost use Rattle.record_fields.specs.Inner.{bytes_of, BytesInside};
ghost use Rattle.record_parts.specs.Parts.{header_handed, node_handed};
ghost use Rattle.record_parts.specs.Chosen.{writer_in, chosen_of};

use number_types::ChunkNumber;
use record_fields::Part;
use record_node::{Node, Writer, Writers};

// A part of a Node; of a Writer's, by its place among them, from 0.
#[derive(Clone, Copy)]
pub enum Field {
    Path,
    Trie,
    Key(usize),
    Permission(usize),
}

// The Writer at a place; nobody behind the last.
#[tactic(auto, using(crate::proofs::Handed::writer_there, crate::proofs::Handed::writer_none, crate::proofs::Handed::writer_beyond))]
fn writer_in(writers: Writers, place: usize) -> Writer
    ensures { result ≡ writer_in writers place }
{
    if place < writers.count {
        if place < 8 {
            return writers.list[place];
        }
    }
    Writer {
        key: Part { at: 0, len: 0 },
        permission: None,
    }
}

// Where a part of a Node lies.
fn chosen(node: Node, field: Field) -> Option<Part>
    ensures { result ≡ chosen_of node field }
{
    match field {
        Field::Path => Some(node.path),
        Field::Trie => node.trie,
        Field::Key(place) => Some(writer_in(node.writers, place).key),
        Field::Permission(place) => writer_in(node.writers, place).permission,
    }
}

// Inner: the bytes that a part stands for.
fn taken<'a>(bytes: &'a [u8], part: Option<Part>) -> &'a [u8]
    requires { BytesInside bytes.now part }
    ensures { result.now ≡ or_nothing (bytes_of bytes.now part) }
{
    match part {
        None => &bytes[0..0],
        Some(p) => {
            let to = p.at + p.len;
            &bytes[p.at..to]
        }
    }
}

// A part of the Node that bytes are.
pub fn node_part<'a>(bytes: &'a [u8], field: Field) -> &'a [u8]
    ensures { result.now ≡ node_handed field bytes.now }
{
    match record_node::read_node(bytes) {
        Err(_) => taken(bytes, None),
        Ok(node) => taken(bytes, chosen(node, field)),
    }
}

// The content bytes of the Header that bytes are.
pub fn header_content<'a>(bytes: &'a [u8]) -> &'a [u8]
    ensures { result.now ≡ header_handed bytes.now }
{
    match record_format::read_header(bytes) {
        Err(_) => taken(bytes, None),
        Ok(part) => taken(bytes, Some(part)),
    }
}

// A part of the Node that a chunk of a register is.
pub fn node_part_of<'a>(
    tree: &[u8],
    signatures: &[u8],
    bitfield: &[u8],
    content: &'a [u8],
    n: u64,
    s: u64,
    size: u64,
    chunk: ChunkNumber,
    field: Field,
) -> &'a [u8]
    ensures { result.now
        ≡ node_handed field
        (read_part node_hash
        (register_of tree.now signatures.now bitfield.now content.now n s size)
        chunk.0) }
{
    let bytes = lookup::read_one(tree, signatures, bitfield, content, n, s, size, chunk);
    node_part(bytes, field)
}

// The content bytes of the Header that a chunk of a register is, as a rule chunk 0.
pub fn header_content_of<'a>(
    tree: &[u8],
    signatures: &[u8],
    bitfield: &[u8],
    content: &'a [u8],
    n: u64,
    s: u64,
    size: u64,
    chunk: ChunkNumber,
) -> &'a [u8]
    ensures { result.now
        ≡ header_handed
        (read_part node_hash
        (register_of tree.now signatures.now bitfield.now content.now n s size)
        chunk.0) }
{
    let bytes = lookup::read_one(tree, signatures, bitfield, content, n, s, size, chunk);
    header_content(bytes)
}
