// The lines of a register, from its stored tree. Every function is inner: the caller sees to the room.
ghost use Rattle.std.specs.Prelude.{◌≡◌, ◌+◌, ◌≤◌, ◌<◌, length};
ghost use Rattle.tree_index.specs.Tree.{entries};
ghost use Rattle.file_format.specs.Stored.{stored_start};
ghost use Rattle.listing_lines.specs.Lines.{line, first_under};
ghost use Rattle.listing_lines.specs.Inner.{Put, Printable, roots_of, first_of, stored_line, stored_entries, stored_lines};

use crate::text::{put_digits, put_text};
use number_types::{ByteOffset, ChunkNumber, TreeIndex};

// A line: index, kind, start, length.
fn put_line(out: &mut [u8], at: usize, i: u64, word: &[u8], start: u64, len: u64) -> usize
    requires { (at + 70 ≤ length out.old) × (length word.now ≤ 8) }
    ensures { Put out.old at 70 (line i word.now start len) result out.new }
{
    let a = put_digits(out, at, i, 20);
    let b = put_text(out, a, word);
    let c = put_digits(out, b, start, 20);
    let d = put_text(out, c, b" ");
    let e = put_digits(out, d, len, 20);
    put_text(out, e, b"\n")
}

// The first chunk under a tree index.
fn first_under(i: TreeIndex) -> ChunkNumber
    requires { i.0 < 127 }
    ensures { result.0 ≡ first_under i.0 }
{
    let d = tree_index::depth(i);
    let k = tree_index::block(i);
    let first = k << d;
    ChunkNumber(first)
}

// Where a chunk starts: the sum of the leaf lengths before it.
fn start_of(tree: &[u8], c: ChunkNumber) -> ByteOffset
    requires { Printable tree.now c.0 }
    ensures { result.0 ≡ stored_start tree.now c.0 }
{
    let mut start = ByteOffset(0);
    for j in 0..c.0 {
        let leaf = tree_index::leaf_index(ChunkNumber(j));
        start = ByteOffset(start.0 + file_format::entries::stored_size(tree, leaf));
    }
    start
}

// The line of a tree entry.
fn put_entry(out: &mut [u8], at: usize, tree: &[u8], n: u64, i: TreeIndex) -> usize
    requires { (at + 70 ≤ length out.old) × Printable tree.now n × (i.0 < entries n) }
    ensures { Put out.old at 70 (stored_line tree.now n i.0) result out.new }
{
    if !tree_index::is_filled(n, i) {
        return put_line(out, at, i.0, b" hole ", 0, 0);
    }
    let start = start_of(tree, first_under(i));
    let len = file_format::entries::stored_size(tree, i);
    if tree_index::depth(i) == 0 {
        return put_line(out, at, i.0, b" leaf ", start.0, len);
    }
    put_line(out, at, i.0, b" parent ", start.0, len)
}

// The lines of all tree entries.
fn put_entries(out: &mut [u8], at: usize, tree: &[u8], n: u64) -> usize
    requires { (at + 8890 ≤ length out.old) × Printable tree.now n }
    ensures { Put out.old at 8890 (stored_entries tree.now n) result out.new }
{
    let mut next = at;
    for i in 0..audit::entry_count(n) {
        next = put_entry(out, next, tree, n, TreeIndex(i));
    }
    next
}

// The roots of the first line, each behind a space.
fn put_roots(out: &mut [u8], at: usize, n: u64) -> usize
    requires { (at + 420 ≤ length out.old) × (n ≤ 64) }
    ensures { Put out.old at 420 (roots_of n) result out.new }
{
    let count = tree_index::root_count(n);
    let roots = tree_index::root_indexes(n);
    let mut next = at;
    for &i in &roots[0..count] {
        let a = put_text(out, next, b" ");
        next = put_digits(out, a, i.0, 20);
    }
    next
}

// The first line: counts and roots.
fn put_first(out: &mut [u8], at: usize, n: u64, size: u64) -> usize
    requires { (at + 481 ≤ length out.old) × (n ≤ 64) }
    ensures { Put out.old at 481 (first_of n size) result out.new }
{
    let a = put_text(out, at, b"chunks ");
    let b = put_digits(out, a, n, 20);
    let c = put_text(out, b, b" bytes ");
    let d = put_digits(out, c, size, 20);
    let e = put_text(out, d, b" roots");
    let f = put_roots(out, e, n);
    put_text(out, f, b"\n")
}

// All lines.
pub fn put_lines(out: &mut [u8], tree: &[u8], n: u64, size: u64) -> usize
    requires { (9371 ≤ length out.old) × Printable tree.now n }
    ensures { Put out.old 0 9371 (stored_lines tree.now n size) result out.new }
{
    let a = put_first(out, 0, n, size);
    put_entries(out, a, tree, n)
}
