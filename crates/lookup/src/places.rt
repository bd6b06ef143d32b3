// The place lookup, of any chunk and of one that is held, and the byte lookup.
ghost use Rattle.std.specs.Prelude.{◌≡◌};
ghost use Rattle.answer_types.specs.Verdict.{done};
ghost use Rattle.answer_types.specs.Meaning.{said};
ghost use Rattle.checks.specs.Lent.{register_of};
ghost use Rattle.lookup.specs.Lookup.{found_behind, place_in, held_place_in, byte_in, place_of, held_place_of, byte_at};
ghost use Rattle.lookup.specs.Inner.{known_if, Searched, SearchedFor, SearchedHeld};
ghost use Rattle.lookup.specs.Meaning.{placed_of, located_of};

use super::descent::{Ending, Sought};
use answer_types::{Place, Refusal};
use number_types::{ByteOffset, ChunkNumber};

// What a place lookup gives: where the chunk's bytes begin, and how many they are.
#[derive(Clone, Copy)]
pub struct Placed {
    pub start: ByteOffset,
    pub length: u64,
}

// What a byte lookup gives: the chunk whose bytes contain the offset, and the offset less its start; at the data size the count of chunks,
// as the number of the chunk behind the last, and 0.
#[derive(Clone, Copy)]
pub struct Located {
    pub chunk: ChunkNumber,
    pub rest: u64,
}

// The place of a chunk, in a register that passes the checks 2 to 6 or a copy that passes its own.
fn place_in(
    tree: &[u8],
    bitfield: &[u8],
    partly: bool,
    n: u64,
    chunk: ChunkNumber,
) -> Result<Placed, Refusal>
    requires { Searched partly tree.now bitfield.now n }
    ensures { placed_of result ≡ place_in (known_if partly bitfield.now) tree.now n chunk.0 }
{
    if n <= chunk.0 {
        return Err(Refusal {
            number: 9,
            place: Place::Nowhere,
        });
    }
    match super::descent::from_roots(tree, bitfield, partly, n, Sought::Chunk(chunk)) {
        Ending::Stopped(i) => Err(Refusal {
            number: 10,
            place: Place::Tree(i),
        }),
        Ending::Unknown(i) => Err(Refusal {
            number: 20,
            place: Place::Tree(i),
        }),
        Ending::Reached(_, start) => Ok(Placed {
            start,
            length: file_format::entries::stored_size(tree, tree_index::leaf_index(chunk)),
        }),
    }
}

// Inner: the same, behind the answer of these checks.
pub fn place_behind(
    checked: Result<(), Refusal>,
    tree: &[u8],
    bitfield: &[u8],
    partly: bool,
    n: u64,
    chunk: ChunkNumber,
) -> Result<Placed, Refusal>
    requires { said checked ≡ done → Searched partly tree.now bitfield.now n }
    ensures { placed_of result ≡
        found_behind (said checked)
        (place_in (known_if partly bitfield.now) tree.now n chunk.0) }
{
    checked?;
    place_in(tree, bitfield, partly, n, chunk)
}

// Start and length of a chunk.
pub fn place(
    tree: &[u8],
    signatures: &[u8],
    bitfield: &[u8],
    content: &[u8],
    n: u64,
    s: u64,
    size: u64,
    chunk: ChunkNumber,
) -> Result<Placed, Refusal>
    ensures { placed_of result ≡
        place_of
        (register_of tree.now signatures.now bitfield.now content.now n s size)
        chunk.0 }
{
    let checked = checks::judge(tree, signatures, bitfield, content, n, s, size);
    place_behind(checked, tree, bitfield, false, n, chunk)
}

// The place of a chunk that is held, in a register that passes the checks 2 to 6 or a copy that passes its own. Its data bit is looked at behind 9,
// so that it lies within the bitfield file, and before anything is walked.
fn held_place_in(
    tree: &[u8],
    bitfield: &[u8],
    partly: bool,
    n: u64,
    chunk: ChunkNumber,
) -> Result<Placed, Refusal>
    requires { SearchedHeld partly tree.now bitfield.now n }
    ensures { placed_of result ≡
        held_place_in (known_if partly bitfield.now) tree.now n bitfield.now chunk.0 }
{
    if n <= chunk.0 {
        return Err(Refusal {
            number: 9,
            place: Place::Nowhere,
        });
    }
    if !bitfield::is_held(bitfield, chunk) {
        return Err(Refusal {
            number: 18,
            place: Place::Tree(tree_index::leaf_index(chunk)),
        });
    }
    place_in(tree, bitfield, partly, n, chunk)
}

// Inner: the same, behind the answer of these checks.
pub fn held_place_behind(
    checked: Result<(), Refusal>,
    tree: &[u8],
    bitfield: &[u8],
    partly: bool,
    n: u64,
    chunk: ChunkNumber,
) -> Result<Placed, Refusal>
    requires { said checked ≡ done → SearchedHeld partly tree.now bitfield.now n }
    ensures { placed_of result ≡
        found_behind (said checked)
        (held_place_in (known_if partly bitfield.now) tree.now n bitfield.now chunk.0) }
{
    checked?;
    held_place_in(tree, bitfield, partly, n, chunk)
}

// Start and length of a chunk that is held: what a read and a release decide by. The place lookup's refusals, with 18 just after 9.
pub fn held_place(
    tree: &[u8],
    signatures: &[u8],
    bitfield: &[u8],
    content: &[u8],
    n: u64,
    s: u64,
    size: u64,
    chunk: ChunkNumber,
) -> Result<Placed, Refusal>
    ensures { placed_of result ≡
        held_place_of
        (register_of tree.now signatures.now bitfield.now content.now n s size)
        chunk.0 }
{
    let checked = checks::judge(tree, signatures, bitfield, content, n, s, size);
    held_place_behind(checked, tree, bitfield, false, n, chunk)
}

// The chunk of a byte, in a register that passes the checks 2 to 6 or a copy that passes its own. At the data size nothing is walked.
fn locate_in(
    tree: &[u8],
    bitfield: &[u8],
    partly: bool,
    n: u64,
    size: u64,
    offset: ByteOffset,
) -> Result<Located, Refusal>
    requires { SearchedFor partly tree.now bitfield.now n size }
    ensures { located_of result ≡ byte_in (known_if partly bitfield.now) tree.now n size offset.0 }
{
    if size < offset.0 {
        return Err(Refusal {
            number: 9,
            place: Place::Nowhere,
        });
    }
    if offset.0 == size {
        return Ok(Located {
            chunk: number_types::chunk_behind(n),
            rest: 0,
        });
    }
    match super::descent::from_roots(tree, bitfield, partly, n, Sought::Byte(offset)) {
        Ending::Stopped(i) => Err(Refusal {
            number: 10,
            place: Place::Tree(i),
        }),
        Ending::Unknown(i) => Err(Refusal {
            number: 20,
            place: Place::Tree(i),
        }),
        Ending::Reached(chunk, start) => Ok(Located {
            chunk,
            rest: offset.0 - start.0,
        }),
    }
}

// Inner: the same, behind the answer of these checks.
pub fn locate_behind(
    checked: Result<(), Refusal>,
    tree: &[u8],
    bitfield: &[u8],
    partly: bool,
    n: u64,
    size: u64,
    offset: ByteOffset,
) -> Result<Located, Refusal>
    requires { said checked ≡ done → SearchedFor partly tree.now bitfield.now n size }
    ensures { located_of result ≡
        found_behind (said checked)
        (byte_in (known_if partly bitfield.now) tree.now n size offset.0) }
{
    checked?;
    locate_in(tree, bitfield, partly, n, size, offset)
}

// The chunk whose bytes contain an offset, and the offset less its start; never an empty chunk. At the data size n and 0, also in an empty
// register.
pub fn locate(
    tree: &[u8],
    signatures: &[u8],
    bitfield: &[u8],
    content: &[u8],
    n: u64,
    s: u64,
    size: u64,
    offset: ByteOffset,
) -> Result<Located, Refusal>
    ensures { located_of result ≡
        byte_at
        (register_of tree.now signatures.now bitfield.now content.now n s size)
        offset.0 }
{
    let checked = checks::judge(tree, signatures, bitfield, content, n, s, size);
    locate_behind(checked, tree, bitfield, false, n, size, offset)
}
