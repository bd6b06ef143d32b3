// The place lookup on a copy, of any chunk and of one that is held, and the byte lookup: a register's behind the checks of a copy, with 20 where the
// descent would read an unknown entry.
ghost use Rattle.std.specs.Prelude.{◌≡◌};
ghost use Rattle.lookup.specs.Meaning.{placed_of, located_of};
ghost use Rattle.copy_checks.specs.Copy.{copy_of};
ghost use Rattle.copy_lookup.specs.Lookups.{copy_place_of, copy_held_place_of, copy_byte_at};

use answer_types::Refusal;
use lookup::{Located, Placed};
use number_types::{ByteOffset, ChunkNumber};

// Start and length of a chunk.
pub fn place(
    tree: &[u8],
    bitfield: &[u8],
    content: &[u8],
    n: u64,
    size: u64,
    chunk: ChunkNumber,
) -> Result<Placed, Refusal>
    ensures { placed_of result ≡
        copy_place_of (copy_of tree.now bitfield.now content.now n size) chunk.0 }
{
    let checked = copy_checks::judge(tree, bitfield, content, n, size);
    lookup::place_behind(checked, tree, bitfield, true, n, chunk)
}

// Start and length of a chunk that is held: what a read and a release decide by. The place lookup's refusals, with 18 just after 9.
pub fn held_place(
    tree: &[u8],
    bitfield: &[u8],
    content: &[u8],
    n: u64,
    size: u64,
    chunk: ChunkNumber,
) -> Result<Placed, Refusal>
    ensures { placed_of result ≡
        copy_held_place_of (copy_of tree.now bitfield.now content.now n size) chunk.0 }
{
    let checked = copy_checks::judge(tree, bitfield, content, n, size);
    lookup::held_place_behind(checked, tree, bitfield, true, n, chunk)
}

// The chunk whose bytes contain an offset, and the offset less its start; never an empty chunk. At the data size n and 0.
pub fn locate(
    tree: &[u8],
    bitfield: &[u8],
    content: &[u8],
    n: u64,
    size: u64,
    offset: ByteOffset,
) -> Result<Located, Refusal>
    ensures { located_of result ≡
        copy_byte_at (copy_of tree.now bitfield.now content.now n size) offset.0 }
{
    let checked = copy_checks::judge(tree, bitfield, content, n, size);
    lookup::locate_behind(checked, tree, bitfield, true, n, size, offset)
}
