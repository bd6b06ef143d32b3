// The stored entry of a chunk's leaf, in a register and in a partial copy: its hash in `hash` and its length in `length`, which are as they were after a
// refusal. Nothing is audited.
ghost use Rattle.checks.specs.Lent.{register_of};
ghost use Rattle.copy_checks.specs.Copy.{copy_of};
ghost use Rattle.stored_leaf.specs.StoredLeaf.{leaf_verdict};
ghost use Rattle.copy_stored_leaf.specs.StoredLeaf.{copy_leaf_verdict};
ghost use Rattle.c_api.specs.Leaves.{TellsLength, GivesLeaf};

use answer_types::Refusal;
use number_types::ChunkNumber;

// The three numbers of the answer, and the length into `length` where there is one.
fn tell_length(found: Result<u64, Refusal>, length: &mut u64) -> [u64; 3]
    ensures { TellsLength found length.old result length.new }
{
    match found {
        Err(refusal) => c_encoding::refused(refusal),
        Ok(bytes) => {
            *length = bytes;
            c_encoding::encode(Ok(()))
        }
    }
}

// Of a register.
#[unsafe(no_mangle)]
pub extern "C" fn sleep_flat_stored_leaf(
    tree: &[u8],
    signatures: &[u8],
    bitfield: &[u8],
    content: &[u8],
    n: u64,
    s: u64,
    size: u64,
    chunk: u64,
    hash: &mut [u8; 32],
    length: &mut u64,
    answer: &mut [u64; 3],
)
    ensures { GivesLeaf
        (leaf_verdict (register_of tree.now signatures.now bitfield.now content.now n s size) chunk)
        tree.now chunk hash.old length.old answer.new hash.new length.new }
{
    let found = stored_leaf::stored_leaf(
        tree,
        signatures,
        bitfield,
        content,
        n,
        s,
        size,
        ChunkNumber(chunk),
        hash,
    );
    *answer = tell_length(found, length);
}

// Of a copy.
#[unsafe(no_mangle)]
pub extern "C" fn sleep_flat_copy_stored_leaf(
    tree: &[u8],
    bitfield: &[u8],
    content: &[u8],
    n: u64,
    size: u64,
    chunk: u64,
    hash: &mut [u8; 32],
    length: &mut u64,
    answer: &mut [u64; 3],
)
    ensures { GivesLeaf (copy_leaf_verdict (copy_of tree.now bitfield.now content.now n size) chunk)
        tree.now chunk hash.old length.old answer.new hash.new length.new }
{
    let found = copy_stored_leaf::stored_leaf(
        tree,
        bitfield,
        content,
        n,
        size,
        ChunkNumber(chunk),
        hash,
    );
    *answer = tell_length(found, length);
}
