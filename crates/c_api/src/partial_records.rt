// The records of a partial copy's chunks, and the paths in them.
// Each is written out beside its kin in `metadata`: C calls it by a name and parameters of its own, and its body is one call and the encoding they share.
ghost use Rattle.blake2b.specs.Hash.{node_hash};
ghost use Rattle.copy_checks.specs.Copy.{copy_of};
ghost use Rattle.std.specs.Prelude.{◌≡◌};
ghost use Rattle.copy_records.specs.Records.{copy_header, copy_node, copy_find};
ghost use Rattle.c_api.specs.Metadata.{GivesHeader, encoded_node, encoded_found};

use number_types::ChunkNumber;

// Where the content bytes of the Header lie that a chunk is, in the chunk.
#[unsafe(no_mangle)]
pub extern "C" fn sleep_flat_copy_header_of(
    tree: &[u8],
    bitfield: &[u8],
    content: &[u8],
    n: u64,
    size: u64,
    chunk: u64,
    out: &mut [u64; 2],
    answer: &mut [u64; 3],
)
    ensures { GivesHeader
        (copy_header node_hash (copy_of tree.now bitfield.now content.now n size) chunk)
        out.old answer.new out.new }
{
    let read = copy_records::header_of(tree, bitfield, content, n, size, ChunkNumber(chunk));
    *answer = super::metadata::give_header(read, out);
}

// The fields of the Node that a chunk is, with parts of the chunk.
#[unsafe(no_mangle)]
pub extern "C" fn sleep_flat_copy_node_of(
    tree: &[u8],
    bitfield: &[u8],
    content: &[u8],
    n: u64,
    size: u64,
    chunk: u64,
    answer: &mut [u64; 70],
)
    ensures { answer.new
        ≡ encoded_node (copy_node node_hash (copy_of tree.now bitfield.now content.now n size) chunk) }
{
    *answer = super::metadata::flat(copy_records::node_of(
        tree,
        bitfield,
        content,
        n,
        size,
        ChunkNumber(chunk),
    ));
}

// The highest chunk number from 1 up whose record has this path.
#[unsafe(no_mangle)]
pub extern "C" fn sleep_flat_copy_find(
    tree: &[u8],
    bitfield: &[u8],
    content: &[u8],
    n: u64,
    size: u64,
    path: &[u8],
    answer: &mut [u64; 5],
)
    ensures { answer.new
        ≡ encoded_found
        (copy_find node_hash (copy_of tree.now bitfield.now content.now n size) path.now) }
{
    *answer = super::metadata::found_as(copy_records::find(tree, bitfield, content, n, size, path));
}
