// The verified read, of one of two registers.
ghost use Rattle.std.specs.Prelude.{◌≡◌};
ghost use Rattle.answer_types.specs.Meaning.{said};
ghost use Rattle.blake2b.specs.Hash.{node_hash};
ghost use Rattle.checks.specs.Lent.{register_of};
ghost use Rattle.lookup.specs.Read.{named, verdict_found, bytes_found, hash_judged, read_found, read_verdict, read_part};
ghost use Rattle.lookup.specs.Meaning.{name_of, placed_of, verified_of, PartIn, PlacedIn};

use super::places::Placed;
use answer_types::{Place, Refusal};
use number_types::{ByteOffset, ChunkNumber};

// Which of the two registers a read names.
#[derive(Clone, Copy)]
pub enum Name {
    Metadata,
    Content,
}

// What the checks of a read give: where the chunk's bytes begin and end in the data.
#[derive(Clone, Copy)]
pub struct Verified {
    pub start: ByteOffset,
    pub end: ByteOffset,
}

// Inner: the leaf hash of a chunk, of its bytes where they lie; a chunk without a place keeps its refusal.
pub fn verify_placed(
    tree: &[u8],
    content: &[u8],
    chunk: ChunkNumber,
    placed: Result<Placed, Refusal>,
) -> Result<Verified, Refusal>
    requires { PlacedIn tree.now content.now chunk.0 (placed_of placed) }
    ensures { verified_of result ≡ hash_judged node_hash tree.now content.now chunk.0 (placed_of placed) }
{
    let Placed { start, length } = placed?;
    let end = ByteOffset(start.0 + length);
    let from = start.0 as usize;
    let to = end.0 as usize;
    let leaf = tree_index::leaf_index(chunk);
    let stored = file_format::entries::stored_hash(tree, leaf);
    let hash = file_format::hashes::leaf_hash(&content[from..to]);
    if byte_strings::same(&stored, &hash) {
        Ok(Verified { start, end })
    } else {
        Err(Refusal {
            number: 10,
            place: Place::Tree(leaf),
        })
    }
}

// The checks of a read of one register: the place of the chunk, which must be held, and then its leaf hash.
pub fn verify(
    tree: &[u8],
    signatures: &[u8],
    bitfield: &[u8],
    content: &[u8],
    n: u64,
    s: u64,
    size: u64,
    chunk: ChunkNumber,
) -> Result<Verified, Refusal>
    ensures { verified_of result ≡
        read_found node_hash
        (register_of tree.now signatures.now bitfield.now content.now n s size)
        chunk.0 }
{
    let placed = super::places::held_place(tree, signatures, bitfield, content, n, s, size, chunk);
    verify_placed(tree, content, chunk, placed)
}

// Inner: the bytes of a part that was verified; none after a refusal.
pub fn bytes_of<'a>(content: &'a [u8], verified: Result<Verified, Refusal>) -> &'a [u8]
    requires { PartIn content.now (verified_of verified) }
    ensures { result.now ≡ bytes_found content.now (verified_of verified) }
{
    match verified {
        Ok(part) => {
            let from = part.start.0 as usize;
            let to = part.end.0 as usize;
            &content[from..to]
        }
        Err(_) => &content[0..0],
    }
}

// Whether a part was verified, or the refusal.
pub fn answer_of(verified: Result<Verified, Refusal>) -> Result<(), Refusal>
    ensures { said result ≡ verdict_found (verified_of verified) }
{
    verified?;
    Ok(())
}

// A read of one register.
pub fn read_one<'a>(
    tree: &[u8],
    signatures: &[u8],
    bitfield: &[u8],
    content: &'a [u8],
    n: u64,
    s: u64,
    size: u64,
    chunk: ChunkNumber,
) -> &'a [u8]
    ensures { result.now ≡
        read_part node_hash
        (register_of tree.now signatures.now bitfield.now content.now n s size)
        chunk.0 }
{
    let verified = verify(tree, signatures, bitfield, content, n, s, size, chunk);
    bytes_of(content, verified)
}

// What a read of one register answers: done, or its refusal.
fn answer_one(
    tree: &[u8],
    signatures: &[u8],
    bitfield: &[u8],
    content: &[u8],
    n: u64,
    s: u64,
    size: u64,
    chunk: ChunkNumber,
) -> Result<(), Refusal>
    ensures { said result ≡
        read_verdict node_hash
        (register_of tree.now signatures.now bitfield.now content.now n s size)
        chunk.0 }
{
    let verified = verify(tree, signatures, bitfield, content, n, s, size, chunk);
    answer_of(verified)
}

// A read names the metadata or the content register, checks only the one named, and hands back that register's own bytes; nothing
// after a refusal, which `read_answer` tells. What belongs to the metadata register begins with m, to the content register with c.
pub fn read<'a>(
    name: Name,
    mtree: &[u8],
    msignatures: &[u8],
    mbitfield: &[u8],
    mdata: &'a [u8],
    mn: u64,
    ms: u64,
    msize: u64,
    ctree: &[u8],
    csignatures: &[u8],
    cbitfield: &[u8],
    cdata: &'a [u8],
    cn: u64,
    cs: u64,
    csize: u64,
    chunk: ChunkNumber,
) -> &'a [u8]
    ensures { result.now ≡
        read_part node_hash
        (named (name_of name)
        (register_of mtree.now msignatures.now mbitfield.now mdata.now mn ms msize)
        (register_of ctree.now csignatures.now cbitfield.now cdata.now cn cs csize))
        chunk.0 }
{
    match name {
        Name::Metadata => read_one(mtree, msignatures, mbitfield, mdata, mn, ms, msize, chunk),
        Name::Content => read_one(ctree, csignatures, cbitfield, cdata, cn, cs, csize, chunk),
    }
}

// Beside a read: whether it is done, or its refusal.
pub fn read_answer(
    name: Name,
    mtree: &[u8],
    msignatures: &[u8],
    mbitfield: &[u8],
    mdata: &[u8],
    mn: u64,
    ms: u64,
    msize: u64,
    ctree: &[u8],
    csignatures: &[u8],
    cbitfield: &[u8],
    cdata: &[u8],
    cn: u64,
    cs: u64,
    csize: u64,
    chunk: ChunkNumber,
) -> Result<(), Refusal>
    ensures { said result ≡
        read_verdict node_hash
        (named (name_of name)
        (register_of mtree.now msignatures.now mbitfield.now mdata.now mn ms msize)
        (register_of ctree.now csignatures.now cbitfield.now cdata.now cn cs csize))
        chunk.0 }
{
    match name {
        Name::Metadata => answer_one(mtree, msignatures, mbitfield, mdata, mn, ms, msize, chunk),
        Name::Content => answer_one(ctree, csignatures, cbitfield, cdata, cn, cs, csize, chunk),
    }
}
