// The verified read on a copy.
ghost use Rattle.std.specs.Prelude.{◌≡◌};
ghost use Rattle.answer_types.specs.Meaning.{said};
ghost use Rattle.blake2b.specs.Hash.{node_hash};
ghost use Rattle.lookup.specs.Meaning.{verified_of};
ghost use Rattle.copy_checks.specs.Copy.{copy_of};
ghost use Rattle.copy_lookup.specs.Reading.{copy_read_verdict, copy_read_part, copy_read_found};

use answer_types::Refusal;
use lookup::Verified;
use number_types::ChunkNumber;

// The checks of a read: the place of the chunk, which must be held, and then its leaf hash.
pub fn verify(
    tree: &[u8],
    bitfield: &[u8],
    content: &[u8],
    n: u64,
    size: u64,
    chunk: ChunkNumber,
) -> Result<Verified, Refusal>
    ensures { verified_of result ≡
        copy_read_found node_hash (copy_of tree.now bitfield.now content.now n size) chunk.0 }
{
    let placed = super::places::held_place(tree, bitfield, content, n, size, chunk);
    lookup::verify_placed(tree, content, chunk, placed)
}

// A read hands back the copy's own bytes of a chunk; nothing after a refusal, which `read_answer` tells.
pub fn read<'a>(
    tree: &[u8],
    bitfield: &[u8],
    content: &'a [u8],
    n: u64,
    size: u64,
    chunk: ChunkNumber,
) -> &'a [u8]
    ensures { result.now ≡
        copy_read_part node_hash (copy_of tree.now bitfield.now content.now n size) chunk.0 }
{
    let verified = verify(tree, bitfield, content, n, size, chunk);
    lookup::bytes_of(content, verified)
}

// Beside a read: whether it is done, or its refusal.
pub fn read_answer(
    tree: &[u8],
    bitfield: &[u8],
    content: &[u8],
    n: u64,
    size: u64,
    chunk: ChunkNumber,
) -> Result<(), Refusal>
    ensures { said result ≡
        copy_read_verdict node_hash (copy_of tree.now bitfield.now content.now n size) chunk.0 }
{
    let verified = verify(tree, bitfield, content, n, size, chunk);
    lookup::answer_of(verified)
}
