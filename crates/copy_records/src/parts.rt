// The parts of a record of a copy as parts of its data: nothing after a refusal, whose number `header_of` and `node_of` tell.
ghost use Rattle.blake2b.specs.Hash.{node_hash};
ghost use Rattle.std.specs.Prelude.{◌≡◌};
ghost use Rattle.record_parts.specs.Parts.{header_handed, node_handed};
ghost use Rattle.copy_checks.specs.Copy.{copy_of};
ghost use Rattle.copy_lookup.specs.Reading.{copy_read_part};

use number_types::ChunkNumber;
use record_parts::Field;

// A part of the Node that a chunk of a copy is.
pub fn node_part_of<'a>(
    tree: &[u8],
    bitfield: &[u8],
    content: &'a [u8],
    n: u64,
    size: u64,
    chunk: ChunkNumber,
    field: Field,
) -> &'a [u8]
    ensures { result.now
        ≡ node_handed field
        (copy_read_part node_hash (copy_of tree.now bitfield.now content.now n size) chunk.0) }
{
    let bytes = copy_lookup::read(tree, bitfield, content, n, size, chunk);
    record_parts::node_part(bytes, field)
}

// The content bytes of the Header that a chunk of a copy is, as a rule chunk 0.
pub fn header_content_of<'a>(
    tree: &[u8],
    bitfield: &[u8],
    content: &'a [u8],
    n: u64,
    size: u64,
    chunk: ChunkNumber,
) -> &'a [u8]
    ensures { result.now
        ≡ header_handed
        (copy_read_part node_hash (copy_of tree.now bitfield.now content.now n size) chunk.0) }
{
    let bytes = copy_lookup::read(tree, bitfield, content, n, size, chunk);
    record_parts::header_content(bytes)
}
