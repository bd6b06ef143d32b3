// Making a packet: "a 4-byte chunk length and the chunk; a 1-byte sibling count and siblings from the leaf upward; a 1-byte count of other
// roots, these from the left". Everything is judged before the buffer is written.
ghost use Rattle.std.specs.Prelude.{◌≡◌, ◌∷◌, ◌+◌, ◌*◌, ◌≤◌, ◌<◌, length};
ghost use Rattle.answer_types.specs.Verdict.{done};
ghost use Rattle.byte_strings.specs.Lists.{put};
ghost use Rattle.tree_index.specs.Numbers.{numbers};
ghost use Rattle.blake2b.specs.Hash.{node_hash};
ghost use Rattle.file_format.specs.Inner.{EntriesIn};
ghost use Rattle.checks.specs.Lent.{register_of};
ghost use Rattle.lookup.specs.Read.{verdict_found, bytes_found};
ghost use Rattle.lookup.specs.Meaning.{verified_of};
ghost use Rattle.packet.specs.Inner.{entries_at, Readable, ReadIn, Roomy};
ghost use Rattle.packet.specs.Packet.{packet_with};
ghost use Rattle.packet.specs.Post.{MadeAs, MadeBehind};

use answer_types::{Place, Refusal};
use lookup::Verified;
use number_types::{ChunkNumber, TreeIndex};

// Inner: stored entries one behind the other, at a place of the buffer that has room for them.
fn write_entries(tree: &[u8], indexes: [TreeIndex; 20], count: usize, out: &mut [u8], at: usize)
    requires { EntriesIn tree.now (numbers indexes) count × at + 40 * count ≤ length out.old }
    ensures { out.new ≡ put out.old at (entries_at tree.now (numbers indexes) count) }
{
    for j in 0..count {
        let start = file_format::entries::entry_place(indexes[j]);
        let end = start + 40;
        byte_strings::copy_to(out, at + 40 * j, &tree[start..end]);
    }
}

// Inner: a count and as many stored entries, at a place of the buffer that has room for them.
fn write_section(tree: &[u8], indexes: [TreeIndex; 20], count: usize, out: &mut [u8], at: usize)
    requires { EntriesIn tree.now (numbers indexes) count × at + 1 + 40 * count ≤ length out.old }
    ensures { out.new ≡ put out.old at (count ∷ entries_at tree.now (numbers indexes) count) }
{
    out[at] = count as u8;
    write_entries(tree, indexes, count, out, at + 1);
}

// Inner: the length of the packet of a chunk.
fn packet_length(tree: &[u8], n: u64, chunk: ChunkNumber, bytes: &[u8]) -> usize
    requires { Readable tree.now n chunk.0 bytes.now }
    ensures { result ≡ length (packet_with tree.now n chunk.0 bytes.now) }
{
    let up = super::path::sibling_count(n, chunk) as usize;
    let others = super::path::other_count(n, chunk);
    4 + bytes.len() + 1 + 40 * up + 1 + 40 * others
}

// Inner: the packet at the front of a buffer that has room for it.
fn write_packet(tree: &[u8], n: u64, chunk: ChunkNumber, bytes: &[u8], out: &mut [u8])
    requires { Roomy tree.now n chunk.0 bytes.now out.old }
    ensures { out.new ≡ put out.old 0 (packet_with tree.now n chunk.0 bytes.now) }
{
    let up = super::path::sibling_count(n, chunk);
    let above = super::path::sibling_indexes(chunk, up);
    let place = super::path::root_place(n, chunk);
    let beside = super::path::other_indexes(n, place);
    let others = super::path::other_count(n, chunk);
    let length = byte_strings::be32(bytes.len() as u32);
    byte_strings::copy_to(out, 0, &length);
    byte_strings::copy_to(out, 4, bytes);
    let first = 4 + bytes.len();
    let siblings = up as usize;
    write_section(tree, above, siblings, out, first);
    write_section(tree, beside, others, out, first + 1 + 40 * siblings);
}

// Inner: the packet of a chunk that is read, where the buffer has room for it.
fn make_read(
    tree: &[u8],
    n: u64,
    chunk: ChunkNumber,
    bytes: &[u8],
    out: &mut [u8],
) -> Result<u64, Refusal>
    requires { Readable tree.now n chunk.0 bytes.now }
    ensures { MadeBehind done (packet_with tree.now n chunk.0 bytes.now) out.old result out.new }
{
    let needed = packet_length(tree, n, chunk, bytes);
    if out.len() < needed {
        return Err(Refusal {
            number: 14,
            place: Place::Nowhere,
        });
    }
    write_packet(tree, n, chunk, bytes, out);
    Ok(needed as u64)
}

// Inner: the packet of what a read found, its refusal first.
pub fn make_behind(
    read: Result<Verified, Refusal>,
    tree: &[u8],
    content: &[u8],
    n: u64,
    chunk: ChunkNumber,
    out: &mut [u8],
) -> Result<u64, Refusal>
    requires { ReadIn tree.now content.now n chunk.0 (verified_of read) }
    ensures { MadeBehind (verdict_found (verified_of read))
        (packet_with tree.now n chunk.0 (bytes_found content.now (verified_of read))) out.old result out.new }
{
    let part = read?;
    let from = part.start.0 as usize;
    let to = part.end.0 as usize;
    make_read(tree, n, chunk, &content[from..to], out)
}

// The packet of a chunk at the front of a buffer, the rest as it was. "Making one does the read of chunk i first, with its refusals."
pub fn make(
    tree: &[u8],
    signatures: &[u8],
    bitfield: &[u8],
    content: &[u8],
    n: u64,
    s: u64,
    size: u64,
    chunk: ChunkNumber,
    out: &mut [u8],
) -> Result<u64, Refusal>
    ensures { MadeAs node_hash
        (register_of tree.now signatures.now bitfield.now content.now n s size)
        chunk.0 out.old result out.new }
{
    let read = lookup::verify(tree, signatures, bitfield, content, n, s, size, chunk);
    make_behind(read, tree, content, n, chunk, out)
}
