// Making a packet of a chunk of a partial copy. Everything is judged before the buffer is written.
#![tactic(auto)]

ghost use Rattle.blake2b.specs.Hash.{node_hash};
ghost use Rattle.copy_checks.specs.Copy.{copy_of};
ghost use Rattle.copy_packet.specs.Making.{CopyMadeAs};

use answer_types::Refusal;
use number_types::ChunkNumber;

// The packet of a chunk of a copy at the front of a buffer, the rest as it was. "Making one does the read of chunk i first, with its refusals."
pub fn make(
    tree: &[u8],
    bitfield: &[u8],
    content: &[u8],
    n: u64,
    size: u64,
    chunk: ChunkNumber,
    out: &mut [u8],
) -> Result<u64, Refusal>
    ensures { CopyMadeAs node_hash (copy_of tree.now bitfield.now content.now n size) chunk.0
        out.old result out.new }
{
    let read = copy_lookup::verify(tree, bitfield, content, n, size, chunk);
    packet::make_behind(read, tree, content, n, chunk, out)
}
