// What a job will need. No register is lent.
ghost use Rattle.c_api.specs.Encoding.{Needs};

use answer_types::Refusal;

// What chunks of these `lengths` behind `n` others, with `size` data bytes, will need: the sizes of tree, signatures, bitfield and data
// afterwards, then the compression runs for the new leaves, the completed parents and the root hash, and all runs together. They stand in
// `out`, which is as it was after a refusal.
#[unsafe(no_mangle)]
pub extern "C" fn sleep_flat_needs(
    n: u64,
    size: u64,
    lengths: &[u64],
    out: &mut [u64; 8],
    answer: &mut [u64; 3],
)
    ensures { Needs n size lengths.now out.old answer.new out.new }
{
    match append_needs::needs(n, size, lengths) {
        Err(refusal) => {
            *answer = c_encoding::refused(refusal);
        }
        Ok(needed) => {
            *out = [
                needed.tree,
                needed.signatures,
                needed.bitfield,
                needed.content,
                needed.leaves,
                needed.parents,
                needed.root,
                needed.runs,
            ];
            *answer = c_encoding::encode(Ok(()));
        }
    }
}
