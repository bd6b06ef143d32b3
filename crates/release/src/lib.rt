// Releasing a chunk: "clears its data bit, regenerates that entry's Index and writes zeros over the chunk's bytes; its tree entries stay".
// Everything is judged before a byte is written.
#![tactic(auto)]

ghost use Rattle.answer_types.specs.Meaning.{said};
ghost use Rattle.checks.specs.Lent.{register_of};
ghost use Rattle.lookup.specs.Meaning.{placed_of};
ghost use Rattle.release.specs.Post.{lent, Clears, Cleared, ClearsAt, ReleasedPost, ReleasePost};

use answer_types::Refusal;
use lookup::Placed;
use number_types::{ByteOffset, ChunkNumber};

// What a release writes, of a chunk whose place was found.
fn clear_chunk(
    bitfield: &mut [u8],
    content: &mut [u8],
    chunk: ChunkNumber,
    start: ByteOffset,
    size: u64,
)
    requires { Clears bitfield.old content.old chunk.0 start.0 size }
    ensures { Cleared bitfield.old content.old chunk.0 start.0 size bitfield.new content.new }
{
    let at = start.0 as usize;
    let count = size as usize;
    bitfield::release_bits(bitfield, chunk);
    byte_strings::clear(content, at, count);
}

// Inner: a release, behind the answer where the chunk lies, which a register or a copy gives.
pub fn release_placed(
    bitfield: &mut [u8],
    content: &mut [u8],
    chunk: ChunkNumber,
    placed: Result<Placed, Refusal>,
) -> Result<(), Refusal>
    requires { ClearsAt bitfield.old content.old chunk.0 (placed_of placed) }
    ensures { ReleasedPost bitfield.old content.old chunk.0 (placed_of placed) (said result)
        bitfield.new content.new }
{
    let placed = placed?;
    clear_chunk(bitfield, content, chunk, placed.start, placed.length);
    Ok(())
}

// A chunk that is held makes room: it is held no longer, and its bytes are zeros.
pub fn release(
    tree: &[u8],
    signatures: &[u8],
    bitfield: &mut [u8],
    content: &mut [u8],
    n: u64,
    s: u64,
    size: u64,
    chunk: ChunkNumber,
) -> Result<(), Refusal>
    ensures { ReleasePost
        (register_of tree.now signatures.now bitfield.old content.old n s size)
        chunk.0 (said result)
        (lent tree.now signatures.now bitfield.new content.new) }
{
    let placed = lookup::held_place(tree, signatures, bitfield, content, n, s, size, chunk);
    release_placed(bitfield, content, chunk, placed)
}
