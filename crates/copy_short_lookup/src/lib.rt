// The short lookups and the short search on a partial copy: a register's behind the checks of a copy, with 20 at a leaf that is not known.
#![tactic(auto)]

ghost use Rattle.std.specs.Prelude.{◌≡◌};
ghost use Rattle.lookup.specs.Meaning.{placed_of, located_of};
ghost use Rattle.search.specs.Meaning.{searched_of};
ghost use Rattle.copy_checks.specs.Copy.{copy_of};
ghost use Rattle.copy_short_lookup.specs.Short.{copy_short_place_of, copy_short_byte_at, copy_short_search};

use answer_types::Refusal;
use lookup::{Located, Placed};
use number_types::{ByteOffset, ChunkNumber};

// Start and length of a chunk of a copy, by adding up leaf lengths.
pub fn place(
    tree: &[u8],
    bitfield: &[u8],
    content: &[u8],
    n: u64,
    size: u64,
    chunk: ChunkNumber,
) -> Result<Placed, Refusal>
    ensures { placed_of result ≡
        copy_short_place_of (copy_of tree.now bitfield.now content.now n size) chunk.0 }
{
    let checked = copy_checks::judge(tree, bitfield, content, n, size);
    short_lookup::place_behind(checked, tree, bitfield, true, n, chunk)
}

// The chunk of a copy whose bytes contain an offset, and the offset less its start, by adding up leaf lengths; at the data size n and 0.
pub fn locate(
    tree: &[u8],
    bitfield: &[u8],
    content: &[u8],
    n: u64,
    size: u64,
    offset: ByteOffset,
) -> Result<Located, Refusal>
    ensures { located_of result ≡
        copy_short_byte_at (copy_of tree.now bitfield.now content.now n size) offset.0 }
{
    let checked = copy_checks::judge(tree, bitfield, content, n, size);
    short_lookup::locate_behind(checked, tree, bitfield, true, n, size, offset)
}

// The first chunk of a copy that is not held, from a given number on, by the data bits in order.
pub fn search(
    tree: &[u8],
    bitfield: &[u8],
    content: &[u8],
    n: u64,
    size: u64,
    from: ChunkNumber,
) -> Result<Option<ChunkNumber>, Refusal>
    ensures { searched_of result ≡
        copy_short_search (copy_of tree.now bitfield.now content.now n size) from.0 }
{
    let checked = copy_checks::judge(tree, bitfield, content, n, size);
    short_lookup::search_behind(checked, bitfield, n, from)
}
