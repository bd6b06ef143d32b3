// A path sought among the records of a register, or of a copy.
ghost use Rattle.std.specs.Prelude.{◌≡◌, ◌-◌};
ghost use Rattle.answer_types.specs.Verdict.{done};
ghost use Rattle.answer_types.specs.Meaning.{said};
ghost use Rattle.blake2b.specs.Hash.{node_hash};
ghost use Rattle.checks.specs.Lent.{register_of};
ghost use Rattle.lookup.specs.Meaning.{verified_of};
ghost use Rattle.record_find.specs.Finding.{found_of, find_down, find_in};
ghost use Rattle.record_find.specs.Inner.{Readable, read_behind, judge_behind, find_behind};

use answer_types::Refusal;
use lookup::Verified;
use number_types::ChunkNumber;

// The read of a chunk, in a register that passes the checks 2 to 6 or a copy that passes its own.
fn read_in(
    tree: &[u8],
    bitfield: &[u8],
    partly: bool,
    content: &[u8],
    n: u64,
    chunk: ChunkNumber,
) -> Result<Verified, Refusal>
    requires { Readable partly tree.now bitfield.now content.now n }
    ensures { verified_of result
        ≡ read_behind partly tree.now bitfield.now content.now n node_hash done chunk.0 }
{
    let placed = lookup::held_place_behind(Ok(()), tree, bitfield, partly, n, chunk);
    lookup::verify_placed(tree, content, chunk, placed)
}

// The chunks from the latest down to chunk 1.
fn search(
    tree: &[u8],
    bitfield: &[u8],
    partly: bool,
    content: &[u8],
    n: u64,
    path: &[u8],
) -> Result<Option<ChunkNumber>, Refusal>
    requires { Readable partly tree.now bitfield.now content.now n }
    ensures { found_of result
        ≡ find_down
        (judge_behind partly tree.now bitfield.now content.now n node_hash done path.now)
        (n - 1) }
{
    for c in (1..n).rev() {
        let chunk = ChunkNumber(c);
        let read = read_in(tree, bitfield, partly, content, n, chunk);
        let same = super::chunks::path_behind(read, content, chunk, path)?;
        if same {
            return Ok(Some(chunk));
        }
    }
    Ok(None)
}

// Inner: what `find` says, behind the answer of the checks.
pub fn find_behind(
    checked: Result<(), Refusal>,
    tree: &[u8],
    bitfield: &[u8],
    partly: bool,
    content: &[u8],
    n: u64,
    path: &[u8],
) -> Result<Option<ChunkNumber>, Refusal>
    requires { said checked ≡ done → Readable partly tree.now bitfield.now content.now n }
    ensures { found_of result
        ≡ find_behind partly tree.now bitfield.now content.now n node_hash (said checked)
        path.now }
{
    checked?;
    if n == 0 {
        return Ok(None);
    }
    let first = ChunkNumber(0);
    let read = read_in(tree, bitfield, partly, content, n, first);
    let _header = super::chunks::header_behind(read, content, first)?;
    search(tree, bitfield, partly, content, n, path)
}

// The highest chunk number from 1 up whose record has a path of the same bytes. Chunk 0, then the records from the latest down to the one
// found, are read and judged in turn, and the first failure is the answer; none where no record has the path, as in an empty register.
pub fn find(
    tree: &[u8],
    signatures: &[u8],
    bitfield: &[u8],
    content: &[u8],
    n: u64,
    s: u64,
    size: u64,
    path: &[u8],
) -> Result<Option<ChunkNumber>, Refusal>
    ensures { found_of result
        ≡ find_in node_hash
        (register_of tree.now signatures.now bitfield.now content.now n s size)
        path.now }
{
    let checked = checks::judge(tree, signatures, bitfield, content, n, s, size);
    find_behind(checked, tree, bitfield, false, content, n, path)
}
