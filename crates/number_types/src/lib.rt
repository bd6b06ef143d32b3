// The three numbers of a register.
//
// A chunk number, a tree index and a byte offset count three separate things, so each is a type of its own, and one
// becomes another only by a function that says how. Each counts from 0, so the number of a thing is how many stand before it.
#![tactic(auto)]

ghost use Rattle.std.specs.Prelude.{◌≡◌};

// The number of a chunk in its register, from 0.
#[derive(Clone, Copy)]
pub struct ChunkNumber(pub u64);

// The index of an entry in the tree file, from 0, leaves and parents together.
#[derive(Clone, Copy)]
pub struct TreeIndex(pub u64);

// An offset in bytes, from the start of a file or of the data.
#[derive(Clone, Copy)]
pub struct ByteOffset(pub u64);

// The chunk behind n others: the one that an append to n chunks adds.
pub fn chunk_behind(n: u64) -> ChunkNumber
    ensures { result.0 ≡ n }
{
    ChunkNumber(n)
}
