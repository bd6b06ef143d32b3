// "A search for the first chunk from a given number on, below n, that isn't held, or none."
#![tactic(auto)]

mod runs;

ghost use Rattle.std.specs.Prelude.{◌≡◌, ◌≤◌};
ghost use Rattle.answer_types.specs.Verdict.{done};
ghost use Rattle.answer_types.specs.Meaning.{said};
ghost use Rattle.checks.specs.Lent.{register_of};
ghost use Rattle.search.specs.Search.{first_missing, sought_unless, search_for};
ghost use Rattle.search.specs.Inner.{DataIn};
ghost use Rattle.search.specs.Meaning.{searched_of};

use answer_types::Refusal;
use number_types::ChunkNumber;

// Inner: the first chunk that is not held, from a given number on, behind the answer of a register's checks 2 to 6 or of a copy's own.
pub fn search_behind(
    checked: Result<(), Refusal>,
    bitfield: &[u8],
    n: u64,
    from: ChunkNumber,
) -> Result<Option<ChunkNumber>, Refusal>
    requires { said checked ≡ done → (n ≤ 1048576) × DataIn bitfield.now n }
    ensures { searched_of result ≡ sought_unless (said checked) (first_missing bitfield.now n from.0) }
{
    checked?;
    Ok(runs::by_runs(bitfield, from.0, n))
}

// The first chunk that is not held, from a given number on.
pub fn search(
    tree: &[u8],
    signatures: &[u8],
    bitfield: &[u8],
    content: &[u8],
    n: u64,
    s: u64,
    size: u64,
    from: ChunkNumber,
) -> Result<Option<ChunkNumber>, Refusal>
    ensures { searched_of result ≡
        search_for
        (register_of tree.now signatures.now bitfield.now content.now n s size)
        from.0 }
{
    let checked = checks::judge(tree, signatures, bitfield, content, n, s, size);
    search_behind(checked, bitfield, n, from)
}
