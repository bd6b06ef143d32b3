// The lookups leaf by leaf, in a register that passes the checks 2 to 6 or a copy that passes its own; `partly` says that the files are a copy's. The leaf of
// chunk k stands at tree index 2k. Each leaf is judged before its length is added, so that no sum can wrap: 1,048,576 lengths of at most 65,536.
ghost use Rattle.std.specs.Prelude.{◌≡◌};
ghost use Rattle.lookup.specs.Inner.{known_if, FilesIn};
ghost use Rattle.lookup.specs.Meaning.{placed_of, located_of};
ghost use Rattle.short_lookup.specs.ShortLookup.{short_place_in, short_byte_in};

use answer_types::{Place, Refusal};
use lookup::{Located, Placed};
use number_types::{ByteOffset, ChunkNumber, TreeIndex};

// Inner: start and length of a chunk. The files hold the entries of n chunks.
pub fn place_in(
    tree: &[u8],
    bitfield: &[u8],
    partly: bool,
    n: u64,
    chunk: ChunkNumber,
) -> Result<Placed, Refusal>
    requires { FilesIn partly tree.now bitfield.now n }
    ensures { placed_of result ≡ short_place_in (known_if partly bitfield.now) tree.now n chunk.0 }
{
    if n <= chunk.0 {
        return Err(Refusal {
            number: 9,
            place: Place::Nowhere,
        });
    }
    let mut start = ByteOffset(0);
    let mut length = 0;
    // Not `0..=chunk.0`: behind its last turn the proof has no fact that this was the chunk.
    for k in 0..chunk.0 + 1 {
        start = ByteOffset(start.0 + length);
        let leaf = tree_index::leaf_index(ChunkNumber(k));
        if !lookup::is_known(bitfield, partly, leaf) {
            return Err(Refusal {
                number: 20,
                place: Place::Tree(leaf),
            });
        }
        length = file_format::entries::stored_size(tree, leaf);
        if 65536 < length {
            return Err(Refusal {
                number: 10,
                place: Place::Tree(leaf),
            });
        }
    }
    Ok(Placed { start, length })
}

// Inner: the chunk whose bytes contain an offset, and the offset less its start. The files hold the entries of n chunks.
pub fn locate_in(
    tree: &[u8],
    bitfield: &[u8],
    partly: bool,
    n: u64,
    size: u64,
    offset: ByteOffset,
) -> Result<Located, Refusal>
    requires { FilesIn partly tree.now bitfield.now n }
    ensures { located_of result ≡ short_byte_in (known_if partly bitfield.now) tree.now n size offset.0 }
{
    if size < offset.0 {
        return Err(Refusal {
            number: 9,
            place: Place::Nowhere,
        });
    }
    if offset.0 == size {
        return Ok(Located {
            chunk: number_types::chunk_behind(n),
            rest: 0,
        });
    }
    let mut start = ByteOffset(0);
    let mut leaf = TreeIndex(0);
    for k in 0..n {
        leaf = tree_index::leaf_index(ChunkNumber(k));
        if !lookup::is_known(bitfield, partly, leaf) {
            return Err(Refusal {
                number: 20,
                place: Place::Tree(leaf),
            });
        }
        let length = file_format::entries::stored_size(tree, leaf);
        if 65536 < length {
            return Err(Refusal {
                number: 10,
                place: Place::Tree(leaf),
            });
        }
        if offset.0 < start.0 + length {
            return Ok(Located {
                chunk: ChunkNumber(k),
                rest: offset.0 - start.0,
            });
        }
        start = ByteOffset(start.0 + length);
    }
    Err(Refusal {
        number: 10,
        place: Place::Tree(leaf),
    })
}
