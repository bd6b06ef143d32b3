// The comparing walk on two registers, and the walk along two packets. Both write nothing.
ghost use Rattle.std.specs.Prelude.{◌≡◌, ◌∷◌};
ghost use Rattle.answer_types.specs.Meaning.{said as toldBy};
ghost use Rattle.blake2b.specs.Hash.{node_hash};
ghost use Rattle.checks.specs.Lent.{register_of};
ghost use Rattle.compare.specs.Walk as Walk;
ghost use Rattle.compare.specs.Meaning.{told as Answered·compared};
ghost use Rattle.packet_compare.specs.Walk.{compare_packets};
ghost use Rattle.packet_compare.specs.Meaning.{told as walk_told};
ghost use Rattle.c_encoding.specs.Encoding.{encoded};
ghost use Rattle.c_api.specs.Encoding.{encoded_comparison, encoded_walk};

use answer_types::Refusal;
use compare::{CompareError, Compared};
use number_types::ChunkNumber;
use packet_compare::Walked;

// An outcome and the three numbers of an answer. The outcome is 0 for equal (of packets: the same chunk), 1 for roots differ, 2 for a collision at the
// roots, 3 for one at a tree index, 4 where the first register or packet is refused and 5 where the second is, by the answer.
fn with_outcome(outcome: u64, said: Result<(), Refusal>) -> [u64; 4]
    ensures { result ≡ outcome ∷ encoded (toldBy said) }
{
    let answer = c_encoding::encode(said);
    [outcome, answer[0], answer[1], answer[2]]
}

// The numbers of a comparison. A collision at a tree index has the index as its place.
pub fn encode_comparison(compared: Result<Compared, CompareError>) -> [u64; 4]
    ensures { result ≡ encoded_comparison (Answered·compared compared) }
{
    match compared {
        Ok(found) => match found {
            Compared::Equal => with_outcome(0, Ok(())),
            Compared::RootsDiffer => with_outcome(1, Ok(())),
            Compared::AtRoots => with_outcome(2, Ok(())),
            Compared::AtIndex(index) => [3, 0, 1, index.0],
        },
        Err(refused) => match refused {
            CompareError::First(refusal) => with_outcome(4, Err(refusal)),
            CompareError::Second(refusal) => with_outcome(5, Err(refusal)),
        },
    }
}

// The audit of the first register, then of the second, then the walk.
#[unsafe(no_mangle)]
pub extern "C" fn sleep_flat_compare(
    tree: &[u8],
    signatures: &[u8],
    bitfield: &[u8],
    content: &[u8],
    n: u64,
    s: u64,
    size: u64,
    tree2: &[u8],
    signatures2: &[u8],
    bitfield2: &[u8],
    content2: &[u8],
    n2: u64,
    s2: u64,
    size2: u64,
    answer: &mut [u64; 4],
)
    ensures { answer.new ≡ encoded_comparison (Walk.compare node_hash
        (register_of tree.now signatures.now bitfield.now content.now n s size)
        (register_of tree2.now signatures2.now bitfield2.now content2.now n2 s2 size2)) }
{
    *answer = encode_comparison(compare::compare(
        tree,
        signatures,
        bitfield,
        content,
        n,
        s,
        size,
        tree2,
        signatures2,
        bitfield2,
        content2,
        n2,
        s2,
        size2,
    ));
}

// The numbers of a walk along two packets.
fn encode_walk(walked: Result<Walked, CompareError>) -> [u64; 4]
    ensures { result ≡ encoded_walk (walk_told walked) }
{
    match walked {
        Ok(found) => match found {
            Walked::SameChunk => with_outcome(0, Ok(())),
            Walked::AtRoots => with_outcome(2, Ok(())),
            Walked::AtIndex(index) => [3, 0, 1, index.0],
        },
        Err(refused) => match refused {
            CompareError::First(refusal) => with_outcome(4, Err(refusal)),
            CompareError::Second(refusal) => with_outcome(5, Err(refusal)),
        },
    }
}

// The check of the first packet, then of the second, then the walk along both.
#[unsafe(no_mangle)]
pub extern "C" fn sleep_flat_compare_packets(
    first: &[u8],
    second: &[u8],
    n: u64,
    chunk: u64,
    root: &[u8; 32],
    answer: &mut [u64; 4],
)
    ensures { answer.new ≡ encoded_walk (compare_packets node_hash first.now second.now n chunk root.now) }
{
    *answer = encode_walk(packet_compare::compare_packets(
        first,
        second,
        n,
        ChunkNumber(chunk),
        root,
    ));
}
