// Messages compared from the lent bytes, none of them copied but those of the roots. All of these are inner.
ghost use Rattle.std.specs.Prelude.{◌≡◌, true};
ghost use Rattle.byte_strings.specs.Lists.{same_list, part};
ghost use Rattle.file_format.specs.Stored.{stored_hash, stored_size, stored_message, stored_root_message};
ghost use Rattle.file_format.specs.Inner.{EntryIn, RootsIn};
ghost use Rattle.tree_index.specs.Tree.{filled};
ghost use Rattle.audit.specs.TreeWalk.{AtParent};
ghost use Rattle.compare.specs.Inner.{ReadAt, sum_below, same_parent, collides_at};

use number_types::{ByteOffset, TreeIndex};

// The so many bytes of the data from a start on, as far as there are any.
fn bytes_from(content: &[u8], start: ByteOffset, size: u64) -> &[u8]
    ensures { result.now ≡ part content.now start.0 size }
{
    let length = content.len() as u64;
    if length <= start.0 {
        return &content[0..0];
    }
    let from = start.0 as usize;
    if length - start.0 <= size {
        return &content[from..];
    }
    let end = from + (size as usize);
    &content[from..end]
}

// Whether two chunks are the same, where they lie.
fn same_chunk(
    tree: &[u8],
    content: &[u8],
    start: ByteOffset,
    tree2: &[u8],
    content2: &[u8],
    start2: ByteOffset,
    i: TreeIndex,
) -> bool
    requires { EntryIn tree.now i.0 × EntryIn tree2.now i.0 }
    ensures { result ≡
        same_list
        (part content.now start.0 (stored_size tree.now i.0))
        (part content2.now start2.0 (stored_size tree2.now i.0)) }
{
    let size = file_format::entries::stored_size(tree, i);
    let size2 = file_format::entries::stored_size(tree2, i);
    let chunk = bytes_from(content, start, size);
    let chunk2 = bytes_from(content2, start2, size2);
    byte_strings::same(chunk, chunk2)
}

// Whether two hashes stored at an index are the same.
fn same_hash(tree: &[u8], tree2: &[u8], i: TreeIndex) -> bool
    requires { EntryIn tree.now i.0 × EntryIn tree2.now i.0 }
    ensures { result ≡ same_list (stored_hash tree.now i.0) (stored_hash tree2.now i.0) }
{
    let hash = file_format::entries::stored_hash(tree, i);
    let hash2 = file_format::entries::stored_hash(tree2, i);
    byte_strings::same(&hash, &hash2)
}

// The sum of the lengths of a parent's children, as it stands in the parent's message: in 8 bytes.
fn sum_below(tree: &[u8], i: TreeIndex) -> u64
    requires { AtParent tree.now i.0 }
    ensures { result ≡ sum_below tree.now i.0 }
{
    let first = file_format::entries::stored_size(tree, tree_index::left_child(i));
    let second = file_format::entries::stored_size(tree, tree_index::right_child(i));
    first.wrapping_add(second)
}

// Whether two parents have one sum of lengths and the same child hashes.
fn same_parent(tree: &[u8], tree2: &[u8], i: TreeIndex) -> bool
    requires { AtParent tree.now i.0 × AtParent tree2.now i.0 }
    ensures { result ≡ same_parent tree.now tree2.now i.0 }
{
    if sum_below(tree, i) != sum_below(tree2, i) {
        return false;
    }
    if !same_hash(tree, tree2, tree_index::left_child(i)) {
        return false;
    }
    same_hash(tree, tree2, tree_index::right_child(i))
}

// Whether two registers have the same message at an index that is filled in both.
fn same_message(
    tree: &[u8],
    content: &[u8],
    start: ByteOffset,
    tree2: &[u8],
    content2: &[u8],
    start2: ByteOffset,
    n: u64,
    i: TreeIndex,
) -> bool
    requires { (filled n i.0 ≡ true) × ReadAt tree.now n i.0 start.0 × ReadAt tree2.now n i.0 start2.0 }
    ensures { result ≡
        same_list
        (stored_message tree.now content.now i.0)
        (stored_message tree2.now content2.now i.0) }
{
    if i.0 % 2 == 0 {
        return same_chunk(tree, content, start, tree2, content2, start2, i);
    }
    same_parent(tree, tree2, i)
}

// Whether two registers of n chunks have different messages with one hash at an entry.
pub fn collides_at(
    tree: &[u8],
    content: &[u8],
    start: ByteOffset,
    tree2: &[u8],
    content2: &[u8],
    start2: ByteOffset,
    n: u64,
    i: TreeIndex,
) -> bool
    requires { ReadAt tree.now n i.0 start.0 × ReadAt tree2.now n i.0 start2.0 }
    ensures { result ≡
        collides_at
        tree.now
        content.now
        tree2.now
        content2.now
        n
        i.0 }
{
    if !tree_index::is_filled(n, i) {
        return false;
    }
    if !same_hash(tree, tree2, i) {
        return false;
    }
    !same_message(tree, content, start, tree2, content2, start2, n, i)
}

// Whether the root messages of two registers are the same. They are short, and made in buffers of their own.
#[tactic(auto, using(tree_index::proofs::Roots::length_roots_le))]
pub fn same_roots(tree: &[u8], n: u64, tree2: &[u8], n2: u64) -> bool
    requires { RootsIn tree.now n × RootsIn tree2.now n2 }
    ensures { result ≡ same_list (stored_root_message tree.now n) (stored_root_message tree2.now n2) }
{
    let message = file_format::roots::stored_root_message(tree, n);
    let message2 = file_format::roots::stored_root_message(tree2, n2);
    let end = 1 + 48 * tree_index::root_count(n);
    let end2 = 1 + 48 * tree_index::root_count(n2);
    byte_strings::same(&message[0..end], &message2[0..end2])
}
