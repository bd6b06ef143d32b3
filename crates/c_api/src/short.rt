// The short way: the lookups that add up leaf lengths from chunk 0, and the search that reads data bits in order. Each gives two numbers, in `out`, which
// is as it was after a refusal.
// Each is written out beside its kin in `lookups`: C calls it by a name and parameters of its own, and its body is one call and the encoding they share.
ghost use Rattle.checks.specs.Lent.{register_of};
ghost use Rattle.short_lookup.specs.ShortLookup.{short_place_of, short_byte_at, short_search_for};
ghost use Rattle.c_encoding.specs.Encoding.{Gives, as_found};

use number_types::{ByteOffset, ChunkNumber};

// Where the bytes of a chunk begin in `content`, and how many they are.
#[unsafe(no_mangle)]
pub extern "C" fn sleep_flat_short_place(
    tree: &[u8],
    signatures: &[u8],
    bitfield: &[u8],
    content: &[u8],
    n: u64,
    s: u64,
    size: u64,
    chunk: u64,
    out: &mut [u64; 2],
    answer: &mut [u64; 3],
)
    ensures { Gives
        (short_place_of (register_of tree.now signatures.now bitfield.now content.now n s size) chunk)
        out.old answer.new out.new }
{
    let found = short_lookup::place(
        tree,
        signatures,
        bitfield,
        content,
        n,
        s,
        size,
        ChunkNumber(chunk),
    );
    *answer = c_encoding::give_place(found, out);
}

// The chunk whose bytes contain an offset, and the offset less its start; never an empty chunk. At the data size n and 0.
#[unsafe(no_mangle)]
pub extern "C" fn sleep_flat_short_byte(
    tree: &[u8],
    signatures: &[u8],
    bitfield: &[u8],
    content: &[u8],
    n: u64,
    s: u64,
    size: u64,
    offset: u64,
    out: &mut [u64; 2],
    answer: &mut [u64; 3],
)
    ensures { Gives
        (short_byte_at (register_of tree.now signatures.now bitfield.now content.now n s size) offset)
        out.old answer.new out.new }
{
    let found = short_lookup::locate(
        tree,
        signatures,
        bitfield,
        content,
        n,
        s,
        size,
        ByteOffset(offset),
    );
    *answer = c_encoding::give_byte(found, out);
}

// The first chunk from a given number on, below n, whose data bit is 0: 1 and its number, or 0 and 0 where there is none.
#[unsafe(no_mangle)]
pub extern "C" fn sleep_flat_short_search(
    tree: &[u8],
    signatures: &[u8],
    bitfield: &[u8],
    content: &[u8],
    n: u64,
    s: u64,
    size: u64,
    from: u64,
    out: &mut [u64; 2],
    answer: &mut [u64; 3],
)
    ensures { Gives
        (as_found (short_search_for (register_of tree.now signatures.now bitfield.now content.now n s size) from))
        out.old answer.new out.new }
{
    let found = short_lookup::search(
        tree,
        signatures,
        bitfield,
        content,
        n,
        s,
        size,
        ChunkNumber(from),
    );
    *answer = c_encoding::give_search(found, out);
}
