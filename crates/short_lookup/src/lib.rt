// The short way for a later reader: the simplest programs that someone with the files would write.
#![tactic(auto)]

mod leaves;

ghost use Rattle.std.specs.Prelude.{◌≡◌, ◌-◌, ◌≤◌, length};
ghost use Rattle.answer_types.specs.Verdict.{done};
ghost use Rattle.answer_types.specs.Meaning.{said};
ghost use Rattle.byte_strings.specs.Lowest.{lowest};
ghost use Rattle.bitfield.specs.Image.{entry_count};
ghost use Rattle.bitfield.specs.Append.{bits_place};
ghost use Rattle.bitfield.specs.Release.{stored_held};
ghost use Rattle.checks.specs.Lent.{register_of};
ghost use Rattle.lookup.specs.Lookup.{found_behind};
ghost use Rattle.lookup.specs.Inner.{known_if, FilesIn};
ghost use Rattle.lookup.specs.Meaning.{placed_of, located_of};
ghost use Rattle.search.specs.Search.{sought_unless};
ghost use Rattle.search.specs.Meaning.{searched_of};
ghost use Rattle.short_lookup.specs.ShortLookup.{short_place_in, short_byte_in, short_place_of, short_byte_at, short_search_for};

use answer_types::Refusal;
use lookup::{Located, Placed};
use number_types::{ByteOffset, ChunkNumber};

// Inner: start and length of a chunk, behind the answer of a register's checks 2 to 6 or of a copy's own. `partly` says that the files
// are a copy's.
pub fn place_behind(
    checked: Result<(), Refusal>,
    tree: &[u8],
    bitfield: &[u8],
    partly: bool,
    n: u64,
    chunk: ChunkNumber,
) -> Result<Placed, Refusal>
    requires { said checked ≡ done → FilesIn partly tree.now bitfield.now n }
    ensures { placed_of result ≡
        found_behind (said checked)
        (short_place_in (known_if partly bitfield.now) tree.now n chunk.0) }
{
    checked?;
    leaves::place_in(tree, bitfield, partly, n, chunk)
}

// Inner: the chunk whose bytes contain an offset, and the offset less its start.
pub fn locate_behind(
    checked: Result<(), Refusal>,
    tree: &[u8],
    bitfield: &[u8],
    partly: bool,
    n: u64,
    size: u64,
    offset: ByteOffset,
) -> Result<Located, Refusal>
    requires { said checked ≡ done → FilesIn partly tree.now bitfield.now n }
    ensures { located_of result ≡
        found_behind (said checked)
        (short_byte_in (known_if partly bitfield.now) tree.now n size offset.0) }
{
    checked?;
    leaves::locate_in(tree, bitfield, partly, n, size, offset)
}

// Inner: the first chunk that is not held, from a given number on.
pub fn search_behind(
    checked: Result<(), Refusal>,
    bitfield: &[u8],
    n: u64,
    from: ChunkNumber,
) -> Result<Option<ChunkNumber>, Refusal>
    requires { said checked ≡ done → bits_place (entry_count n) ≤ length bitfield.now }
    ensures { searched_of result ≡
        sought_unless (said checked) (lowest (stored_held bitfield.now) from.0 (n - from.0)) }
{
    checked?;
    Ok(bitfield::first_missing(bitfield, from, n))
}

// Start and length of a chunk, by adding up leaf lengths.
pub fn place(
    tree: &[u8],
    signatures: &[u8],
    bitfield: &[u8],
    content: &[u8],
    n: u64,
    s: u64,
    size: u64,
    chunk: ChunkNumber,
) -> Result<Placed, Refusal>
    ensures { placed_of result ≡
        short_place_of
        (register_of tree.now signatures.now bitfield.now content.now n s size)
        chunk.0 }
{
    let checked = checks::judge(tree, signatures, bitfield, content, n, s, size);
    place_behind(checked, tree, bitfield, false, n, chunk)
}

// The chunk whose bytes contain an offset, and the offset less its start, by adding up leaf lengths; at the data size n and 0.
pub fn locate(
    tree: &[u8],
    signatures: &[u8],
    bitfield: &[u8],
    content: &[u8],
    n: u64,
    s: u64,
    size: u64,
    offset: ByteOffset,
) -> Result<Located, Refusal>
    ensures { located_of result ≡
        short_byte_at
        (register_of tree.now signatures.now bitfield.now content.now n s size)
        offset.0 }
{
    let checked = checks::judge(tree, signatures, bitfield, content, n, s, size);
    locate_behind(checked, tree, bitfield, false, n, size, offset)
}

// The first chunk that is not held, from a given number on, by the data bits in order.
pub fn search(
    tree: &[u8],
    signatures: &[u8],
    bitfield: &[u8],
    content: &[u8],
    n: u64,
    s: u64,
    size: u64,
    from: ChunkNumber,
) -> Result<Option<ChunkNumber>, Refusal>
    ensures { searched_of result ≡
        short_search_for
        (register_of tree.now signatures.now bitfield.now content.now n s size)
        from.0 }
{
    let checked = checks::judge(tree, signatures, bitfield, content, n, s, size);
    search_behind(checked, bitfield, n, from)
}
