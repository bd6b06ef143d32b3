// Packets: made from a register, and checked against a root hash by whoever has no register.
ghost use Rattle.checks.specs.Lent.{register_of};
ghost use Rattle.c_encoding.specs.Encoding.{Gives};
ghost use Rattle.c_api.specs.Encoding.{Makes, packet_part};

use answer_types::Refusal;
use number_types::ChunkNumber;

// The packet of a chunk at the front of `out`, the rest as it was, and the packet's length in `length`. Both are as they were after a
// refusal.
#[unsafe(no_mangle)]
pub extern "C" fn sleep_flat_make_packet(
    tree: &[u8],
    signatures: &[u8],
    bitfield: &[u8],
    content: &[u8],
    n: u64,
    s: u64,
    size: u64,
    chunk: u64,
    out: &mut [u8],
    length: &mut u64,
    answer: &mut [u64; 3],
)
    ensures { Makes
        (register_of tree.now signatures.now bitfield.now content.now n s size)
        chunk out.old length.old answer.new out.new length.new }
{
    let made = packet::make(
        tree,
        signatures,
        bitfield,
        content,
        n,
        s,
        size,
        ChunkNumber(chunk),
        out,
    );
    *answer = c_encoding::give_length(made, length);
}

// The chunk's part of a packet that passes the check: where it begins in `packet` and how many bytes it has, in `out`, which is as it was
// after a refusal.
#[unsafe(no_mangle)]
pub extern "C" fn sleep_flat_check_packet(
    packet: &[u8],
    n: u64,
    chunk: u64,
    root: &[u8; 32],
    out: &mut [u64; 2],
    answer: &mut [u64; 3],
)
    ensures { Gives
        (packet_part packet.now n chunk root.now)
        out.old answer.new out.new }
{
    let said = packet::check_answer(packet, n, ChunkNumber(chunk), root);
    match said {
        Err(refusal) => {
            *answer = c_encoding::refused(refusal);
        }
        Ok(()) => {
            let length = byte_strings::read_be32(packet, 0);
            *out = [4, length];
            *answer = c_encoding::encode(Ok(()));
        }
    }
}
