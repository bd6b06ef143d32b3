// The used size of each file of a register. Inner: for counts that the checks have let pass, so that nothing wraps.
ghost use Rattle.std.specs.Prelude.{◌≡◌, ◌≤◌};
ghost use Rattle.file_format.specs.Sizes.{used_tree, used_signatures, used_bitfield};

// The used size of the tree file of n chunks.
#[tactic(auto, unfolding(crate::specs::Sizes::used_tree, tree_index::specs::Tree::entries))]
pub fn used_tree(n: u64) -> usize
    requires { n ≤ 1048576 }
    ensures { result ≡ used_tree n }
{
    32 + 40 * (2 * (n as usize)).saturating_sub(1)
}

// The used size of the signatures file of s signatures.
#[tactic(auto, unfolding(crate::specs::Sizes::used_signatures))]
pub fn used_signatures(s: u64) -> usize
    requires { s ≤ 1048576 }
    ensures { result ≡ used_signatures s }
{
    32 + 64 * (s as usize)
}

// The used size of the bitfield file of n chunks.
#[tactic(auto, unfolding(crate::specs::Sizes::used_bitfield, bitfield::specs::Image::entry_count))]
pub fn used_bitfield(n: u64) -> usize
    requires { n ≤ 1048576 }
    ensures { result ≡ used_bitfield n }
{
    32 + 3328 * (n as usize).div_ceil(8192)
}
