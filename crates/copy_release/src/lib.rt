// Releasing a chunk of a partial copy. Everything is judged before a byte is written.
#![tactic(auto)]

ghost use Rattle.answer_types.specs.Meaning.{said};
ghost use Rattle.copy_checks.specs.Copy.{copy_of, files_lent};
ghost use Rattle.copy_release.specs.Post.{ReleasePost};

use answer_types::Refusal;
use number_types::ChunkNumber;

// A chunk of a copy that is held makes room: it is held no longer, and its bytes are zeros.
pub fn release(
    tree: &[u8],
    bitfield: &mut [u8],
    content: &mut [u8],
    n: u64,
    size: u64,
    chunk: ChunkNumber,
) -> Result<(), Refusal>
    ensures { ReleasePost (copy_of tree.now bitfield.old content.old n size) chunk.0 (said result)
        (files_lent tree.now bitfield.new content.new) }
{
    let placed = copy_lookup::held_place(tree, bitfield, content, n, size, chunk);
    release::release_placed(bitfield, content, chunk, placed)
}
