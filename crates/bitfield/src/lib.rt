// The bitfield file: its bits, and the Index regenerated from its data bytes.
#![tactic(auto)]

pub mod index;

ghost use Rattle.std.specs.Prelude.{◌≡◌, ◌+◌, ◌-◌, ◌/◌, ◌%◌, ◌^◌, ◌<◌, ◌≤◌, length};
ghost use Rattle.byte_strings.specs.Lowest.{lowest};
ghost use Rattle.bitfield.specs.Bits.{bit_at, set_bit, clear_bit};
ghost use Rattle.bitfield.specs.Append.{bits_place, zeroed_if_new, set_data_bit, set_tree_bit, set_tree_bits, regenerated, with_bits, appended};
ghost use Rattle.bitfield.specs.Image.{entry_count};
ghost use Rattle.bitfield.specs.Release.{stored_held, clear_data_bit, released_bits};
ghost use Rattle.bitfield.specs.Known.{stored_known, held_again};
ghost use Rattle.bitfield.specs.Missing.{found_at};
ghost use Rattle.tree_index.specs.Tree.{filled_by};

use number_types::{ChunkNumber, TreeIndex};

// The entry that has the data bit of a chunk. It and the three functions behind it are a line each, where one function over a size would take a chunk's
// number and a tree index as one kind of number.
fn entry_of_chunk(c: ChunkNumber) -> usize
    ensures { result ≡ c.0 / 8192 }
{
    (c.0 / 8192) as usize
}

// The entry that has the tree bit of a tree index.
fn entry_of_index(i: TreeIndex) -> usize
    ensures { result ≡ i.0 / 16384 }
{
    (i.0 / 16384) as usize
}

// Which of the data bits of its entry is a chunk's.
fn data_bit(c: ChunkNumber) -> usize
    ensures { result ≡ c.0 % 8192 }
{
    (c.0 % 8192) as usize
}

// Which of the tree bits of its entry is a tree index's.
fn tree_bit(i: TreeIndex) -> usize
    ensures { result ≡ i.0 % 16384 }
{
    (i.0 % 16384) as usize
}

// Inner: where an entry that lies in a file begins.
#[tactic(auto, unfolding(crate::specs::Append::bits_place))]
fn entry_place(e: usize) -> usize
    requires { bits_place e < 2 ^ 64 }
    ensures { result ≡ bits_place e }
{
    32 + 3328 * e
}

// The value that the bit number b has in its byte. The first bit of a byte is its highest.
#[tactic(auto, using(crate::proofs::Bits::mask, crate::proofs::Bits::positive))]
fn bit_value(b: usize) -> u8
    ensures { (result ≡ 2 ^ (7 - b % 8)) × (0 < result) }
{
    let r = (b % 8) as u8;
    128u8 >> r
}

// Inner: the bit number b, counted from the byte at place p, becomes 1.
#[tactic(auto, unfolding(crate::specs::Bits::change_bit))]
fn set_bit(xs: &mut [u8], p: usize, b: usize)
    requires { p + b / 8 < length xs.old }
    ensures { xs.new ≡ set_bit xs.old p b }
{
    let at = p + b / 8;
    xs[at] |= bit_value(b);
}

// Inner: the same bit becomes 0.
#[tactic(auto, using(crate::proofs::Bits::masked_off), unfolding(crate::specs::Bits::change_bit))]
fn clear_bit(xs: &mut [u8], p: usize, b: usize)
    requires { p + b / 8 < length xs.old }
    ensures { xs.new ≡ clear_bit xs.old p b }
{
    let at = p + b / 8;
    xs[at] &= !bit_value(b);
}

// Inner: whether that bit is 1.
#[tactic(auto, using(crate::proofs::Bits::read_bit), unfolding(crate::specs::Bits::bit_at))]
fn bit_is_set(xs: &[u8], p: usize, b: usize) -> bool
    requires { p + b / 8 < length xs.now }
    ensures { result ≡ bit_at xs.now p b }
{
    let at = p + b / 8;
    xs[at] & bit_value(b) != 0
}

// Inner: the data bit of a chunk, whose entry has its room.
#[tactic(auto, unfolding(crate::specs::Append::bits_place, crate::specs::Append::set_data_bit))]
fn set_data_bit(xs: &mut [u8], c: ChunkNumber)
    requires { bits_place (c.0 / 8192 + 1) ≤ length xs.old }
    ensures { xs.new ≡ set_data_bit xs.old c.0 }
{
    let at = entry_place(entry_of_chunk(c));
    set_bit(xs, at, data_bit(c));
}

// Inner: the tree bit of a tree index, which lies in entry e.
#[tactic(auto, unfolding(crate::specs::Append::bits_place, crate::specs::Append::set_tree_bit))]
fn set_tree_bit(xs: &mut [u8], e: usize, i: TreeIndex)
    requires { (e ≡ i.0 / 16384) × (bits_place (e + 1) ≤ length xs.old) }
    ensures { xs.new ≡ set_tree_bit xs.old i.0 }
{
    let at = entry_place(e) + 1024;
    set_bit(xs, at, tree_bit(i));
}

// Inner: the entry of a new chunk becomes zeros where it is new.
#[tactic(auto, using(crate::proofs::Append::zeroed_there, crate::proofs::Append::zeroed_old), unfolding(crate::specs::Append::bits_place))]
fn zero_if_new(xs: &mut [u8], c: ChunkNumber)
    requires { bits_place (c.0 / 8192 + 1) ≤ length xs.old }
    ensures { xs.new ≡ zeroed_if_new xs.old c.0 }
{
    if data_bit(c) == 0 {
        let at = entry_place(entry_of_chunk(c));
        byte_strings::clear(xs, at, 3328);
    }
}

// Inner: the Index of entry e made anew from its data bytes.
#[tactic(auto, using(crate::proofs::Levels::length_index), unfolding(crate::specs::Append::bits_place))]
fn regenerate(xs: &mut [u8], e: usize)
    requires { bits_place (e + 1) ≤ length xs.old }
    ensures { xs.new ≡ regenerated xs.old e }
{
    let at = entry_place(e);
    let end = at + 1024;
    let bytes = index::index_of(&xs[at..end]);
    byte_strings::copy_to(xs, at + 3072, &bytes);
}

// The tree bits that a chunk fills: its leaf's and those of the parents that it completes. The bit of a node may lie in an earlier entry
// than the chunk's.
#[tactic(auto, using(crate::proofs::Append::no_bits, crate::proofs::Append::next_bit, crate::proofs::Append::all_bits))]
fn set_filled(xs: &mut [u8], c: ChunkNumber)
    requires { (c.0 < 1048576) × (bits_place (c.0 / 8192 + 1) ≤ length xs.old) }
    ensures { xs.new ≡ set_tree_bits xs.old (filled_by c.0) }
{
    for d in 0..=tree_index::completed(c) {
        let i = tree_index::node_ending(c, d);
        set_tree_bit(xs, entry_of_index(i), i);
    }
}

// Inner: the bits of a new chunk. The Index stays as it is.
#[tactic(auto, unfolding(crate::specs::Append::with_bits))]
pub fn set_bits(xs: &mut [u8], c: ChunkNumber)
    requires { (c.0 < 1048576) × (bits_place (c.0 / 8192 + 1) ≤ length xs.old) }
    ensures { xs.new ≡ with_bits xs.old c.0 }
{
    zero_if_new(xs, c);
    set_data_bit(xs, c);
    set_filled(xs, c);
}

// Inner: the Index of the entry that has the data bit of a chunk, made anew.
#[tactic(auto, unfolding(crate::specs::Append::bits_place))]
pub fn make_index(xs: &mut [u8], c: ChunkNumber)
    requires { bits_place (c.0 / 8192 + 1) ≤ length xs.old }
    ensures { xs.new ≡ regenerated xs.old (c.0 / 8192) }
{
    regenerate(xs, entry_of_chunk(c));
}

// Inner: what the append of a chunk does to the bitfield file.
#[tactic(auto, unfolding(crate::specs::Append::appended))]
pub fn append_bits(xs: &mut [u8], c: ChunkNumber)
    requires { (c.0 < 1048576) × (bits_place (c.0 / 8192 + 1) ≤ length xs.old) }
    ensures { xs.new ≡ appended xs.old c.0 }
{
    set_bits(xs, c);
    make_index(xs, c);
}

// Inner: whether the data bit of a chunk is 1, which says that it is held.
#[tactic(auto, unfolding(crate::specs::Append::bits_place, crate::specs::Release::stored_held))]
pub fn is_held(xs: &[u8], c: ChunkNumber) -> bool
    requires { bits_place (c.0 / 8192 + 1) ≤ length xs.now }
    ensures { result ≡ stored_held xs.now c.0 }
{
    let at = entry_place(entry_of_chunk(c));
    bit_is_set(xs, at, data_bit(c))
}

// Inner: the first chunk from a given number on, below n, that is not held. The data bits are read in order.
#[tactic(auto, using(byte_strings::proofs::Lowest::lowest_on, byte_strings::proofs::Lowest::lowest_off, byte_strings::proofs::Lowest::lowest_end), unfolding(crate::specs::Append::bits_place, crate::specs::Image::entry_count))]
pub fn first_missing(xs: &[u8], from: ChunkNumber, n: u64) -> Option<ChunkNumber>
    requires { bits_place (entry_count n) ≤ length xs.now }
    ensures { found_at result ≡ lowest (stored_held xs.now) from.0 (n - from.0) }
{
    for k in from.0..n {
        let c = ChunkNumber(k);
        if !is_held(xs, c) {
            return Some(c);
        }
    }
    None
}

// Inner: the data bit of a chunk, whose entry has its room, becomes 0.
#[tactic(auto, unfolding(crate::specs::Append::bits_place, crate::specs::Release::clear_data_bit))]
fn clear_data_bit(xs: &mut [u8], c: ChunkNumber)
    requires { bits_place (c.0 / 8192 + 1) ≤ length xs.old }
    ensures { xs.new ≡ clear_data_bit xs.old c.0 }
{
    let at = entry_place(entry_of_chunk(c));
    clear_bit(xs, at, data_bit(c));
}

// Inner: what the release of a chunk does to the bitfield file.
#[tactic(auto, unfolding(crate::specs::Release::released_bits))]
pub fn release_bits(xs: &mut [u8], c: ChunkNumber)
    requires { bits_place (c.0 / 8192 + 1) ≤ length xs.old }
    ensures { xs.new ≡ released_bits xs.old c.0 }
{
    clear_data_bit(xs, c);
    make_index(xs, c);
}

// Inner: whether the tree bit of a tree index is 1, which says that its entry is known.
#[tactic(auto, unfolding(crate::specs::Append::bits_place, crate::specs::Known::stored_known))]
pub fn is_known(xs: &[u8], i: TreeIndex) -> bool
    requires { bits_place (i.0 / 16384 + 1) ≤ length xs.now }
    ensures { result ≡ stored_known xs.now i.0 }
{
    let at = entry_place(entry_of_index(i)) + 1024;
    bit_is_set(xs, at, tree_bit(i))
}

// Inner: the tree bit of a tree index becomes 1.
pub fn make_known(xs: &mut [u8], i: TreeIndex)
    requires { bits_place (i.0 / 16384 + 1) ≤ length xs.old }
    ensures { xs.new ≡ set_tree_bit xs.old i.0 }
{
    set_tree_bit(xs, entry_of_index(i), i);
}

// Inner: what the taking in of a chunk does to its data bit and to the Index.
#[tactic(auto, unfolding(crate::specs::Known::held_again))]
pub fn hold_bits(xs: &mut [u8], c: ChunkNumber)
    requires { bits_place (c.0 / 8192 + 1) ≤ length xs.old }
    ensures { xs.new ≡ held_again xs.old c.0 }
{
    set_data_bit(xs, c);
    make_index(xs, c);
}
