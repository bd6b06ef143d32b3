// The lookups, the verified read and the searches on a partial copy. Each gives two numbers, in `out`, which is as it was after a refusal.
// Each is written out beside its kin in `lookups`: C calls it by a name and parameters of its own, and its body is one call and the encoding they share.
ghost use Rattle.blake2b.specs.Hash.{node_hash};
ghost use Rattle.copy_checks.specs.Copy.{copy_of};
ghost use Rattle.copy_lookup.specs.Lookups.{copy_place_of, copy_byte_at};
ghost use Rattle.copy_lookup.specs.Reading.{copy_read_found};
ghost use Rattle.copy_roots.specs.Roots.{copy_search};
ghost use Rattle.copy_short_lookup.specs.Short.{copy_short_place_of, copy_short_byte_at, copy_short_search};
ghost use Rattle.c_encoding.specs.Encoding.{Gives, as_part, as_found};

use number_types::{ByteOffset, ChunkNumber};

// Where the bytes of a chunk begin in `content`, and how many they are; of any chunk that is there, held or not.
#[unsafe(no_mangle)]
pub extern "C" fn sleep_flat_copy_place(
    tree: &[u8],
    bitfield: &[u8],
    content: &[u8],
    n: u64,
    size: u64,
    chunk: u64,
    out: &mut [u64; 2],
    answer: &mut [u64; 3],
)
    ensures { Gives
        (copy_place_of (copy_of tree.now bitfield.now content.now n size) chunk)
        out.old answer.new out.new }
{
    let found = copy_lookup::place(tree, bitfield, content, n, size, ChunkNumber(chunk));
    *answer = c_encoding::give_place(found, out);
}

// The chunk whose bytes contain an offset, and the offset less its start; never an empty chunk. At the data size n and 0.
#[unsafe(no_mangle)]
pub extern "C" fn sleep_flat_copy_byte(
    tree: &[u8],
    bitfield: &[u8],
    content: &[u8],
    n: u64,
    size: u64,
    offset: u64,
    out: &mut [u64; 2],
    answer: &mut [u64; 3],
)
    ensures { Gives
        (copy_byte_at (copy_of tree.now bitfield.now content.now n size) offset)
        out.old answer.new out.new }
{
    let found = copy_lookup::locate(tree, bitfield, content, n, size, ByteOffset(offset));
    *answer = c_encoding::give_byte(found, out);
}

// A verified read: where the bytes of a chunk begin in `content` and how many they are, after its leaf hash was compared.
#[unsafe(no_mangle)]
pub extern "C" fn sleep_flat_copy_read(
    tree: &[u8],
    bitfield: &[u8],
    content: &[u8],
    n: u64,
    size: u64,
    chunk: u64,
    out: &mut [u64; 2],
    answer: &mut [u64; 3],
)
    ensures { Gives
        (as_part (copy_read_found node_hash (copy_of tree.now bitfield.now content.now n size) chunk))
        out.old answer.new out.new }
{
    let found = copy_lookup::verify(tree, bitfield, content, n, size, ChunkNumber(chunk));
    *answer = c_encoding::give_part(found, out);
}

// The first chunk from a given number on, below n, that is not held: 1 and its number, or 0 and 0 where there is none.
#[unsafe(no_mangle)]
pub extern "C" fn sleep_flat_copy_search(
    tree: &[u8],
    bitfield: &[u8],
    content: &[u8],
    n: u64,
    size: u64,
    from: u64,
    out: &mut [u64; 2],
    answer: &mut [u64; 3],
)
    ensures { Gives
        (as_found (copy_search (copy_of tree.now bitfield.now content.now n size) from))
        out.old answer.new out.new }
{
    let found = copy_roots::search(tree, bitfield, content, n, size, ChunkNumber(from));
    *answer = c_encoding::give_search(found, out);
}

// The short way: where the bytes of a chunk begin, by the leaf lengths alone, added up from chunk 0 on.
#[unsafe(no_mangle)]
pub extern "C" fn sleep_flat_copy_short_place(
    tree: &[u8],
    bitfield: &[u8],
    content: &[u8],
    n: u64,
    size: u64,
    chunk: u64,
    out: &mut [u64; 2],
    answer: &mut [u64; 3],
)
    ensures { Gives
        (copy_short_place_of (copy_of tree.now bitfield.now content.now n size) chunk)
        out.old answer.new out.new }
{
    let found = copy_short_lookup::place(tree, bitfield, content, n, size, ChunkNumber(chunk));
    *answer = c_encoding::give_place(found, out);
}

// The chunk whose bytes contain an offset, and the offset less its start, by the leaf lengths alone. At the data size n and 0.
#[unsafe(no_mangle)]
pub extern "C" fn sleep_flat_copy_short_byte(
    tree: &[u8],
    bitfield: &[u8],
    content: &[u8],
    n: u64,
    size: u64,
    offset: u64,
    out: &mut [u64; 2],
    answer: &mut [u64; 3],
)
    ensures { Gives
        (copy_short_byte_at (copy_of tree.now bitfield.now content.now n size) offset)
        out.old answer.new out.new }
{
    let found = copy_short_lookup::locate(tree, bitfield, content, n, size, ByteOffset(offset));
    *answer = c_encoding::give_byte(found, out);
}

// The first chunk from a given number on, below n, whose data bit is 0: 1 and its number, or 0 and 0 where there is none.
#[unsafe(no_mangle)]
pub extern "C" fn sleep_flat_copy_short_search(
    tree: &[u8],
    bitfield: &[u8],
    content: &[u8],
    n: u64,
    size: u64,
    from: u64,
    out: &mut [u64; 2],
    answer: &mut [u64; 3],
)
    ensures { Gives
        (as_found (copy_short_search (copy_of tree.now bitfield.now content.now n size) from))
        out.old answer.new out.new }
{
    let found = copy_short_lookup::search(tree, bitfield, content, n, size, ChunkNumber(from));
    *answer = c_encoding::give_search(found, out);
}
