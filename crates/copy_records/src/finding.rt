// A path sought among the records of a copy.
ghost use Rattle.std.specs.Prelude.{◌≡◌};
ghost use Rattle.blake2b.specs.Hash.{node_hash};
ghost use Rattle.record_find.specs.Finding.{found_of};
ghost use Rattle.copy_checks.specs.Copy.{copy_of};
ghost use Rattle.copy_records.specs.Records.{copy_find};

use answer_types::Refusal;
use number_types::ChunkNumber;

// The highest chunk number from 1 up whose record has a path of the same bytes. Chunk 0, then the records from the latest down to the one
// found, are read and judged in turn, and the first failure is the answer; none where no record has the path, as in a copy of no chunks.
pub fn find(
    tree: &[u8],
    bitfield: &[u8],
    content: &[u8],
    n: u64,
    size: u64,
    path: &[u8],
) -> Result<Option<ChunkNumber>, Refusal>
    ensures { found_of result
        ≡ copy_find node_hash (copy_of tree.now bitfield.now content.now n size)
        path.now }
{
    let checked = copy_checks::judge(tree, bitfield, content, n, size);
    record_find::find_behind(checked, tree, bitfield, true, content, n, path)
}
