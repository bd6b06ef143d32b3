// Rows of entries, 40 bytes each, one behind the other, with a tree index for each: compared with the known entries, written, and added up.
// All of these are inner: they require the entries to lie within the row and the files.
ghost use Rattle.std.specs.Prelude.{◌≡◌, [], ◌∷◌, map, ◌+◌, ◌≤◌, length};
ghost use Rattle.byte_strings.specs.Lists.{total};
ghost use Rattle.tree_index.specs.Numbers.{numbers};
ghost use Rattle.copy_checks.specs.Least.{lower_of, least_of};
ghost use Rattle.lookup.specs.Unknown.{first_entry};
ghost use Rattle.copy_take_in.specs.TakeIn.{contradicts, left_size};
ghost use Rattle.copy_take_in.specs.Inner.{lies, row_given, KnowableIn, RowFor, WithGiven, Addable};

use number_types::TreeIndex;

// Whether the entry at a place of a row contradicts the known entry of a tree index.
pub fn contradiction_at(
    tree: &[u8],
    bitfield: &[u8],
    i: TreeIndex,
    row: &[u8],
    at: usize,
) -> Option<TreeIndex>
    requires { KnowableIn tree.now bitfield.now i.0 × at + 40 ≤ length row.now }
    ensures { first_entry result ≡ contradicts tree.now bitfield.now (lies row.now at i.0) }
{
    if !bitfield::is_known(bitfield, i) {
        return None;
    }
    let start = file_format::entries::entry_place(i);
    let end = start + 40;
    let to = at + 40;
    if byte_strings::same(&tree[start..end], &row[at..to]) {
        return None;
    }
    Some(i)
}

// The lowest index of a row whose entry contradicts, or what was found before, if that is lower.
pub fn lowest_in_row(
    tree: &[u8],
    bitfield: &[u8],
    row: &[u8],
    at: usize,
    indexes: [TreeIndex; 20],
    count: usize,
    before: Option<TreeIndex>,
) -> Option<TreeIndex>
    requires { RowFor tree.now bitfield.now row.now at (numbers indexes) count }
    ensures { first_entry result ≡
        lower_of (first_entry before)
        (least_of (map (contradicts tree.now bitfield.now) (row_given row.now at (numbers indexes) count))) }
{
    let mut found = before;
    for j in 0..count {
        let here = contradiction_at(tree, bitfield, indexes[j], row, at + 40 * j);
        found = copy_checks::lower_of(found, here);
    }
    found
}

// The entry at a place of a row, written at a tree index, which makes it known.
pub fn write_one(tree: &mut [u8], bitfield: &mut [u8], i: TreeIndex, row: &[u8], at: usize)
    requires { KnowableIn tree.old bitfield.old i.0 × at + 40 ≤ length row.now }
    ensures { WithGiven tree.old bitfield.old (lies row.now at i.0 ∷ []) tree.new
        bitfield.new }
{
    let start = file_format::entries::entry_place(i);
    let to = at + 40;
    byte_strings::copy_to(tree, start, &row[at..to]);
    bitfield::make_known(bitfield, i);
}

// A row written at its tree indexes.
pub fn write_row(
    tree: &mut [u8],
    bitfield: &mut [u8],
    row: &[u8],
    at: usize,
    indexes: [TreeIndex; 20],
    count: usize,
)
    requires { RowFor tree.old bitfield.old row.now at (numbers indexes) count }
    ensures { WithGiven tree.old bitfield.old (row_given row.now at (numbers indexes) count) tree.new
        bitfield.new }
{
    for j in 0..count {
        write_one(tree, bitfield, indexes[j], row, at + 40 * j);
    }
}

// The length of the entry at a place of a row where its tree index is lower than a leaf's, else 0.
pub fn left_size(row: &[u8], at: usize, i: TreeIndex, leaf: TreeIndex) -> u64
    requires { at + 40 ≤ length row.now }
    ensures { result ≡ left_size leaf.0 (lies row.now at i.0) }
{
    if i.0 < leaf.0 {
        return byte_strings::read_be64(row, at + 32);
    }
    0
}

// These lengths of a row, added to a sum.
pub fn left_in_row(
    row: &[u8],
    at: usize,
    indexes: [TreeIndex; 20],
    count: usize,
    leaf: TreeIndex,
    from: u64,
) -> u64
    requires { Addable row.now at count from }
    ensures { result ≡ from + total (map (left_size leaf.0) (row_given row.now at (numbers indexes) count)) }
{
    let mut sum = from;
    for j in 0..count {
        sum += left_size(row, at + 40 * j, indexes[j], leaf);
    }
    sum
}
