// The lookups, the verified read and the search. Each gives two numbers, in `out`, which is as it was after a refusal.
ghost use Rattle.blake2b.specs.Hash.{node_hash};
ghost use Rattle.checks.specs.Lent.{register_of};
ghost use Rattle.lookup.specs.Lookup.{place_of, byte_at};
ghost use Rattle.lookup.specs.Read.{read_found};
ghost use Rattle.search.specs.Search.{search_for};
ghost use Rattle.c_encoding.specs.Encoding.{Gives, as_part, as_found};

use number_types::{ByteOffset, ChunkNumber};

// Where the bytes of a chunk begin in `content`, and how many they are.
#[unsafe(no_mangle)]
pub extern "C" fn sleep_flat_place(
    tree: &[u8],
    signatures: &[u8],
    bitfield: &[u8],
    content: &[u8],
    n: u64,
    s: u64,
    size: u64,
    chunk: u64,
    out: &mut [u64; 2],
    answer: &mut [u64; 3],
)
    ensures { Gives
        (place_of (register_of tree.now signatures.now bitfield.now content.now n s size) chunk)
        out.old answer.new out.new }
{
    let found = lookup::place(
        tree,
        signatures,
        bitfield,
        content,
        n,
        s,
        size,
        ChunkNumber(chunk),
    );
    *answer = c_encoding::give_place(found, out);
}

// The chunk whose bytes contain an offset, and the offset less its start; never an empty chunk. At the data size n and 0, also in an empty
// register.
#[unsafe(no_mangle)]
pub extern "C" fn sleep_flat_byte(
    tree: &[u8],
    signatures: &[u8],
    bitfield: &[u8],
    content: &[u8],
    n: u64,
    s: u64,
    size: u64,
    offset: u64,
    out: &mut [u64; 2],
    answer: &mut [u64; 3],
)
    ensures { Gives
        (byte_at (register_of tree.now signatures.now bitfield.now content.now n s size) offset)
        out.old answer.new out.new }
{
    let found = lookup::locate(
        tree,
        signatures,
        bitfield,
        content,
        n,
        s,
        size,
        ByteOffset(offset),
    );
    *answer = c_encoding::give_byte(found, out);
}

// A verified read: where the bytes of a chunk begin in `content` and how many they are, after its leaf hash was compared. The caller names
// the register by lending it.
#[unsafe(no_mangle)]
pub extern "C" fn sleep_flat_read(
    tree: &[u8],
    signatures: &[u8],
    bitfield: &[u8],
    content: &[u8],
    n: u64,
    s: u64,
    size: u64,
    chunk: u64,
    out: &mut [u64; 2],
    answer: &mut [u64; 3],
)
    ensures { Gives
        (as_part (read_found node_hash (register_of tree.now signatures.now bitfield.now content.now n s size) chunk))
        out.old answer.new out.new }
{
    let found = lookup::verify(
        tree,
        signatures,
        bitfield,
        content,
        n,
        s,
        size,
        ChunkNumber(chunk),
    );
    *answer = c_encoding::give_part(found, out);
}

// The first chunk from a given number on, below n, that is not held: 1 and its number, or 0 and 0 where there is none.
#[unsafe(no_mangle)]
pub extern "C" fn sleep_flat_search(
    tree: &[u8],
    signatures: &[u8],
    bitfield: &[u8],
    content: &[u8],
    n: u64,
    s: u64,
    size: u64,
    from: u64,
    out: &mut [u64; 2],
    answer: &mut [u64; 3],
)
    ensures { Gives
        (as_found (search_for (register_of tree.now signatures.now bitfield.now content.now n s size) from))
        out.old answer.new out.new }
{
    let found = search::search(
        tree,
        signatures,
        bitfield,
        content,
        n,
        s,
        size,
        ChunkNumber(from),
    );
    *answer = c_encoding::give_search(found, out);
}
