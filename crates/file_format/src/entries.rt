// The entries of a tree file, each a 32-byte hash and an 8-byte length. All of these are inner: they require the entry to lie
// within the lent tree file.
ghost use Rattle.std.specs.Prelude.{◌≡◌, ◌++◌, ◌+◌, ◌<◌};
ghost use Rattle.byte_strings.specs.Lists.{put, zeros};
ghost use Rattle.byte_strings.specs.Numbers.{be};
ghost use Rattle.file_format.specs.Sizes.{entry_place};
ghost use Rattle.file_format.specs.Stored.{stored_hash, stored_size};
ghost use Rattle.file_format.specs.Inner.{EntryIn};

use number_types::TreeIndex;

// Where an entry begins.
#[tactic(auto, unfolding(crate::specs::Sizes::entry_place))]
pub fn entry_place(i: TreeIndex) -> usize
    requires { i.0 < 4194304 }
    ensures { result ≡ entry_place i.0 }
{
    32 + 40 * (i.0 as usize)
}

// The hash stored in an entry.
#[tactic(auto, unfolding(crate::specs::Stored::stored_hash, byte_strings::specs::Lists::part))]
pub fn stored_hash(tree: &[u8], i: TreeIndex) -> [u8; 32]
    requires { EntryIn tree.now i.0 }
    ensures { result ≡ stored_hash tree.now i.0 }
{
    let start = entry_place(i);
    let mut hash = [0u8; 32];
    hash.copy_from_slice(&tree[start..start + 32]);
    hash
}

// The length stored in an entry.
#[tactic(auto, unfolding(crate::specs::Stored::stored_size))]
pub fn stored_size(tree: &[u8], i: TreeIndex) -> u64
    requires { EntryIn tree.now i.0 }
    ensures { result ≡ stored_size tree.now i.0 }
{
    byte_strings::read_be64(tree, entry_place(i) + 32)
}

// An entry written, and everything else left as it was.
#[tactic(auto, using(crate::proofs::Places::written_entry))]
pub fn write_entry(tree: &mut [u8], i: TreeIndex, hash: &[u8; 32], size: u64)
    requires { EntryIn tree.old i.0 }
    ensures { tree.new ≡ put tree.old (entry_place i.0) (hash.now ++ be 8 size) }
{
    let start = entry_place(i);
    byte_strings::copy_to(tree, start, hash);
    let length = byte_strings::be64(size);
    byte_strings::copy_to(tree, start + 32, &length);
}

// An entry made a hole, and everything else left as it was.
pub fn clear_entry(tree: &mut [u8], i: TreeIndex)
    requires { EntryIn tree.old i.0 }
    ensures { tree.new ≡ put tree.old (entry_place i.0) (zeros 40) }
{
    byte_strings::clear(tree, entry_place(i), 40);
}
