// The records of a metadata register, and the paths in them. The fields of a Node are numbers alone, whose parts lie in the bytes lent or, of a
// chunk of a register, in the bytes of the chunk.
ghost use Rattle.std.specs.Prelude.{◌≡◌, ◌∷◌};
ghost use Rattle.answer_types.specs.Meaning.{said as toldBy};
ghost use Rattle.blake2b.specs.Hash.{node_hash};
ghost use Rattle.checks.specs.Lent.{register_of};
ghost use Rattle.answer_types.specs.Verdict.{none};
ghost use Rattle.record_format.specs.Post.{header_told, read_header};
ghost use Rattle.record_node.specs.Post.{node_told, read_node};
ghost use Rattle.record_find.specs.ChunkRecords.{header_in, node_in};
ghost use Rattle.record_find.specs.Finding.{found_of, find_in};
ghost use Rattle.c_encoding.specs.Encoding.{encoded};
ghost use Rattle.c_api.specs.Metadata.{WritesHeader, WritesNode, Told, GivesHeader, encoded_node, encoded_found};

use answer_types::Refusal;
use c_records::FlatNode;
use number_types::ChunkNumber;
use record_fields::Part;
use record_node::Node;

// What writing answers; the number of the bytes written into `length`, unless it is refused.
fn give_length(written: Result<u64, Refusal>, length: &mut u64) -> [u64; 3]
    ensures { Told written length.old result length.new }
{
    match written {
        Err(refusal) => c_encoding::refused(refusal),
        Ok(bytes) => {
            *length = bytes;
            c_encoding::encode(Ok(()))
        }
    }
}

// The Header with these content bytes, at the front of `out`, and how many bytes it has, in `length`.
#[unsafe(no_mangle)]
pub extern "C" fn sleep_flat_write_header(
    content: &[u8],
    out: &mut [u8],
    length: &mut u64,
    answer: &mut [u64; 3],
)
    ensures { WritesHeader content.now out.old length.old answer.new out.new length.new }
{
    *answer = give_length(record_format::write_header(content, out), length);
}

// The Node whose fields are the numbers `node`, with parts that lie in `bytes`, at the front of `out`, and how many bytes it has, in `length`.
#[unsafe(no_mangle)]
pub extern "C" fn sleep_flat_write_node(
    bytes: &[u8],
    node: &[u64; 67],
    out: &mut [u8],
    length: &mut u64,
    answer: &mut [u64; 3],
)
    ensures { WritesNode bytes.now node.now out.old length.old answer.new out.new length.new }
{
    let fields = Node::from(c_records::flat_at(node));
    *answer = give_length(record_node::write_node(bytes, fields, out), length);
}

// What reading a Header answers; where its content bytes lie, as two numbers, unless it is refused.
pub fn give_header(read: Result<Part, Refusal>, out: &mut [u64; 2]) -> [u64; 3]
    ensures { GivesHeader (header_told read) out.old result out.new }
{
    match read {
        Err(refusal) => c_encoding::refused(refusal),
        Ok(part) => {
            *out = [part.at as u64, part.len as u64];
            c_encoding::encode(Ok(()))
        }
    }
}

// Where the content bytes of the Header lie that `bytes` are.
#[unsafe(no_mangle)]
pub extern "C" fn sleep_flat_read_header(bytes: &[u8], out: &mut [u64; 2], answer: &mut [u64; 3])
    ensures { GivesHeader (read_header none bytes.now) out.old answer.new out.new }
{
    *answer = give_header(record_format::read_header(bytes), out);
}

// What reading a Node answers, and behind it the 67 numbers of its fields, which are all 0 after a refusal.
pub fn flat(read: Result<Node, Refusal>) -> [u64; 70]
    ensures { result ≡ encoded_node (node_told read) }
{
    match read {
        Err(refusal) => {
            let answer = c_encoding::refused(refusal);
            c_records::answered(answer, c_records::no_fields())
        }
        Ok(node) => {
            let answer = c_encoding::encode(Ok(()));
            c_records::answered(answer, FlatNode::from(node))
        }
    }
}

// The fields of the Node that `bytes` are.
#[unsafe(no_mangle)]
pub extern "C" fn sleep_flat_read_node(bytes: &[u8], answer: &mut [u64; 70])
    ensures { answer.new ≡ encoded_node (read_node none bytes.now) }
{
    *answer = flat(record_node::read_node(bytes));
}

// Where the content bytes of the Header lie that a chunk is, in the chunk.
#[unsafe(no_mangle)]
pub extern "C" fn sleep_flat_header_of(
    tree: &[u8],
    signatures: &[u8],
    bitfield: &[u8],
    content: &[u8],
    n: u64,
    s: u64,
    size: u64,
    chunk: u64,
    out: &mut [u64; 2],
    answer: &mut [u64; 3],
)
    ensures { GivesHeader
        (header_in node_hash (register_of tree.now signatures.now bitfield.now content.now n s size) chunk)
        out.old answer.new out.new }
{
    let read = record_find::header_of(
        tree,
        signatures,
        bitfield,
        content,
        n,
        s,
        size,
        ChunkNumber(chunk),
    );
    *answer = give_header(read, out);
}

// The fields of the Node that a chunk is, with parts of the chunk.
#[unsafe(no_mangle)]
pub extern "C" fn sleep_flat_node_of(
    tree: &[u8],
    signatures: &[u8],
    bitfield: &[u8],
    content: &[u8],
    n: u64,
    s: u64,
    size: u64,
    chunk: u64,
    answer: &mut [u64; 70],
)
    ensures { answer.new
        ≡ encoded_node
        (node_in node_hash (register_of tree.now signatures.now bitfield.now content.now n s size) chunk) }
{
    *answer = flat(record_find::node_of(
        tree,
        signatures,
        bitfield,
        content,
        n,
        s,
        size,
        ChunkNumber(chunk),
    ));
}

// Whether a record has the path, 1 or 0, the number of its chunk, which is 0 where none has or the search is refused, and the three numbers of an answer.
fn with_found(found: u64, chunk: u64, said: Result<(), Refusal>) -> [u64; 5]
    ensures { result ≡ found ∷ chunk ∷ encoded (toldBy said) }
{
    let answer = c_encoding::encode(said);
    [found, chunk, answer[0], answer[1], answer[2]]
}

// What a search answers, as numbers.
pub fn found_as(found: Result<Option<ChunkNumber>, Refusal>) -> [u64; 5]
    ensures { result ≡ encoded_found (found_of found) }
{
    match found {
        Err(refusal) => with_found(0, 0, Err(refusal)),
        Ok(Some(chunk)) => with_found(1, chunk.0, Ok(())),
        Ok(None) => with_found(0, 0, Ok(())),
    }
}

// The highest chunk number from 1 up whose record has this path.
#[unsafe(no_mangle)]
pub extern "C" fn sleep_flat_find(
    tree: &[u8],
    signatures: &[u8],
    bitfield: &[u8],
    content: &[u8],
    n: u64,
    s: u64,
    size: u64,
    path: &[u8],
    answer: &mut [u64; 5],
)
    ensures { answer.new
        ≡ encoded_found
        (find_in node_hash (register_of tree.now signatures.now bitfield.now content.now n s size) path.now) }
{
    *answer = found_as(record_find::find(tree, signatures, bitfield, content, n, s, size, path));
}
