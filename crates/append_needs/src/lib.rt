// What a job will need: the four file sizes and the compression runs of BLAKE2b, before a chunk is appended. No register is lent, and the work
// grows with the list alone.
#![tactic(auto)]

ghost use Rattle.std.specs.Prelude.{◌≡◌, map, ◌+◌, ◌*◌, ◌≤◌, ◌<◌, length, leb};
ghost use Rattle.answer_types.specs.Meaning.{said};
ghost use Rattle.byte_strings.specs.Lists.{run, total};
ghost use Rattle.tree_index.specs.Tree.{completed, roots};
ghost use Rattle.blake2b.specs.Hash.{blocks};
ghost use Rattle.file_format.specs.Sizes.{most_chunks};
ghost use Rattle.append_needs.specs.Needs.{leaf_runs, parent_runs, root_runs, need_verdict};
ghost use Rattle.append_needs.specs.Post.{NeedPost};
ghost use Rattle.append_needs.specs.Inner.{Listed, Asked, Answered};

use answer_types::Refusal;

// The sizes of the four files, the runs for the new leaves, the completed parents and the root hash, and all runs together.
#[derive(Clone, Copy)]
pub struct Needed {
    pub tree: u64,
    pub signatures: u64,
    pub bitfield: u64,
    pub content: u64,
    pub leaves: u64,
    pub parents: u64,
    pub root: u64,
    pub runs: u64,
}

// How many chunks there are with `count` more, or, where both together pass the limit, some number above it.
fn count_after(n: u64, count: u64) -> u64
    ensures { leb result most_chunks ≡ leb (n + count) most_chunks }
{
    if 1048576 < n {
        return n;
    }
    if 1048576 < count {
        return count;
    }
    n + count
}

// Numbers 2, 16, 7 and 9.
fn judge(n: u64, size: u64, lengths: &[u64]) -> Result<(), Refusal>
    ensures { said result ≡ need_verdict n size lengths.now }
{
    let count = lengths.len() as u64;
    let end = count_after(n, count);
    if 1048576 < end {
        return answer_types::refuse(2);
    }
    if 256 < count {
        return answer_types::refuse(16);
    }
    if !checks::all_short(lengths) {
        return answer_types::refuse(7);
    }
    if 65536 * n < size {
        return answer_types::refuse(9);
    }
    Ok(())
}

// Inner: the runs of a message of so many bytes.
#[tactic(auto, unfolding(blake2b::specs::Hash::blocks))]
fn runs_of(bytes: u64) -> u64
    requires { bytes < 1048576 }
    ensures { result ≡ blocks bytes }
{
    if bytes == 0 {
        return 1;
    }
    (bytes + 127) / 128
}

// Inner: the sum of the lengths.
fn new_bytes(lengths: &[u64]) -> u64
    requires { Listed lengths.now }
    ensures { (result ≡ total lengths.now) × (result ≤ 16777216) }
{
    lengths.iter().sum()
}

// Inner: the runs of the leaves. A leaf message has the chunk behind 9 bytes.
fn leaf_runs(lengths: &[u64]) -> u64
    requires { Listed lengths.now }
    ensures { (result ≡ total (map leaf_runs lengths.now)) × (result ≤ 1048576) }
{
    lengths.iter().map(|length| runs_of(9 + *length)).sum()
}

// Inner: the parents of n chunks. Every node but a root has a parent, and every parent two children.
#[tactic(auto, using(crate::proofs::Completed::roots_le))]
fn parents(n: u64) -> u64
    requires { n ≤ 1048576 }
    ensures { result + length (roots n) ≡ n }
{
    n - tree_index::root_count(n) as u64
}

// Inner: the runs of the parents that the chunks from n on complete, `count` of them. A parent message has 73 bytes.
fn parent_runs(n: u64, count: u64) -> u64
    requires { n + count ≤ 1048576 }
    ensures { (result ≡ total (run (λ i. completed i * parent_runs) n count)) × (result ≤ 1048576) }
{
    runs_of(73) * (parents(n + count) - parents(n))
}

// Inner: the runs of the root hash of n chunks. A root message has 48 bytes for each root behind its first byte.
#[tactic(auto, using(tree_index::proofs::Roots::length_roots_le))]
fn root_runs(n: u64) -> u64
    requires { n ≤ 1048576 }
    ensures { (result ≡ root_runs n) × (result ≤ 8) }
{
    runs_of(1 + 48 * (tree_index::root_count(n) as u64))
}

// Inner: all of it.
fn counted(n: u64, size: u64, lengths: &[u64]) -> Needed
    requires { Asked n size lengths.now }
    ensures { Answered n size lengths.now result }
{
    let count = lengths.len() as u64;
    let end = n + count;
    let leaves = leaf_runs(lengths);
    let parents = parent_runs(n, count);
    let root = root_runs(end);
    Needed {
        tree: file_format::sizes::used_tree(end) as u64,
        signatures: file_format::sizes::used_signatures(end) as u64,
        bitfield: file_format::sizes::used_bitfield(end) as u64,
        content: size + new_bytes(lengths),
        leaves,
        parents,
        root,
        runs: leaves + parents + root,
    }
}

// What chunks of these lengths behind n others, with so many data bytes, will need.
pub fn needs(n: u64, size: u64, lengths: &[u64]) -> Result<Needed, Refusal>
    ensures { NeedPost n size lengths.now result }
{
    judge(n, size, lengths)?;
    Ok(counted(n, size, lengths))
}
