// The root hash, root hashes of earlier years and the search on a partial copy. Its files are lent to be read.
#![tactic(auto)]

ghost use Rattle.std.specs.Result.{result_unwrap_or};
ghost use Rattle.byte_strings.specs.Lists.{zeros};
ghost use Rattle.std.specs.Prelude.{◌≡◌};
ghost use Rattle.answer_types.specs.Verdict.{tree, done};
ghost use Rattle.answer_types.specs.Meaning.{said};
ghost use Rattle.tree_index.specs.Tree.{roots};
ghost use Rattle.bitfield.specs.Known.{stored_known};
ghost use Rattle.audit.specs.Audit.{refused_at};
ghost use Rattle.audit.specs.BitfieldEntries.{BitsIn};
ghost use Rattle.search.specs.Meaning.{searched_of};
ghost use Rattle.copy_checks.specs.Copy.{copy_of};
ghost use Rattle.lookup.specs.Unknown.{first_unknown};
ghost use Rattle.copy_roots.specs.Roots.{copy_prefix_verdict, copy_search};
ghost use Rattle.copy_roots.specs.Post.{RootPost, PrefixRootPost};

use answer_types::Refusal;
use number_types::ChunkNumber;

// The root hash that the stored roots of a copy give.
pub fn root_hash(
    tree: &[u8],
    bitfield: &[u8],
    content: &[u8],
    n: u64,
    size: u64,
) -> Result<[u8; 32], Refusal>
    ensures { RootPost (copy_of tree.now bitfield.now content.now n size) (said result) (result_unwrap_or result (zeros 32)) }
{
    let found = copy_checks::judge(tree, bitfield, content, n, size);
    prefix_root::rooted(found, tree, n)
}

// Inner: 20 at the first of the roots of m chunks, from the left, that is not known.
fn roots_known(bitfield: &[u8], m: u64) -> Result<(), Refusal>
    requires { BitsIn bitfield.now m }
    ensures { said result ≡ refused_at 20 tree (first_unknown (stored_known bitfield.now) (roots m)) done }
{
    match copy_checks::unknown_root(bitfield, m) {
        Some(i) => answer_types::refuse_entry(20, i),
        None => Ok(()),
    }
}

// The checks of a copy, 9 for m above n, and then 20 at an unknown root of the first m chunks.
fn judge_old(
    tree: &[u8],
    bitfield: &[u8],
    content: &[u8],
    n: u64,
    size: u64,
    m: u64,
) -> Result<(), Refusal>
    ensures { said result ≡ copy_prefix_verdict (copy_of tree.now bitfield.now content.now n size) m }
{
    copy_checks::judge(tree, bitfield, content, n, size)?;
    prefix_root::up_to(n, m)?;
    roots_known(bitfield, m)
}

// The root hash of the first m chunks of a copy, from its stored entries.
pub fn prefix_root_hash(
    tree: &[u8],
    bitfield: &[u8],
    content: &[u8],
    n: u64,
    size: u64,
    m: u64,
) -> Result<[u8; 32], Refusal>
    ensures { PrefixRootPost (copy_of tree.now bitfield.now content.now n size) m (said result) (result_unwrap_or result (zeros 32)) }
{
    let found = judge_old(tree, bitfield, content, n, size, m);
    prefix_root::rooted(found, tree, m)
}

// The first chunk of a copy that is not held, from a given number on.
pub fn search(
    tree: &[u8],
    bitfield: &[u8],
    content: &[u8],
    n: u64,
    size: u64,
    from: ChunkNumber,
) -> Result<Option<ChunkNumber>, Refusal>
    ensures { searched_of result ≡ copy_search (copy_of tree.now bitfield.now content.now n size) from.0 }
{
    let checked = copy_checks::judge(tree, bitfield, content, n, size);
    search::search_behind(checked, bitfield, n, from)
}
