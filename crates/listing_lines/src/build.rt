// The input read into a register, which the library's own calls build. Inner.
ghost use Rattle.std.specs.Prelude.{◌+◌, ◌-◌, ◌≤◌, ◌<◌, ◌≡◌, length, drop, []};
ghost use Rattle.checks.specs.Lent.{register_of};
ghost use Rattle.listing_lines.specs.Input.{chunk_stands, chunks_in, input_of};
ghost use Rattle.listing_lines.specs.Inner.{Adds, Ready, Read, Rooms};

// Whether the input is one of chunks, and then their number and the sum of their lengths.
#[derive(Clone, Copy)]
pub struct Told {
    pub read: bool,
    pub n: u64,
    pub size: u64,
}

// One more chunk, and 64 zero bytes as its signature. Neither call is refused here, as the contract says.
fn add(
    tree: &mut [u8],
    signatures: &mut [u8],
    bitfield: &mut [u8],
    content: &mut [u8],
    n: u64,
    size: u64,
    chunk: &[u8],
)
    requires { (n < 64) × (size + length chunk.now ≤ 4096) }
    ensures { Adds
        (register_of tree.old signatures.old bitfield.old content.old n n size)
        chunk.now
        (register_of tree.new signatures.new bitfield.new content.new (n + 1) (n + 1)
        (size + length chunk.now)) }
{
    let _ = writing::append(tree, signatures, bitfield, content, n, n, size, chunk);
    let signature = [0u8; 64];
    let _ = writing::store_signature(
        tree,
        signatures,
        bitfield,
        content,
        n + 1,
        n,
        size + chunk.len() as u64,
        &signature,
    );
}

// Whether a chunk stands at a place of the input, with `size` bytes before it.
fn stands(input: &[u8], at: usize, size: u64) -> bool
    requires { (at ≤ length input.now) × (size ≤ 4096) }
    ensures { result ≡ chunk_stands (drop at input.now) (4096 - size) }
{
    let left = input.len() - at;
    if left < 4 {
        return false;
    }
    let len = byte_strings::read_be32(input, at);
    if 4096 - size < len {
        return false;
    }
    4 + len <= left as u64
}

// The chunks of the input, `count` of them and nothing behind, onto a register that was just started.
fn read_chunks(
    input: &[u8],
    count: u64,
    tree: &mut [u8],
    signatures: &mut [u8],
    bitfield: &mut [u8],
    content: &mut [u8],
) -> Told
    requires { (4 ≤ length input.now) × (count ≤ 64)
        × Ready (register_of tree.old signatures.old bitfield.old content.old 0 0 0) [] }
    ensures { Read (chunks_in count (drop 4 input.now) 4096) result.read
        (register_of tree.new signatures.new bitfield.new content.new result.n result.n result.size) }
{
    let mut at: usize = 4;
    let mut size: u64 = 0;
    for n in 0..count {
        if !stands(input, at, size) {
            return Told {
                read: false,
                n,
                size,
            };
        }
        let len = byte_strings::read_be32(input, at);
        let start = at + 4;
        let end = start + (len as usize);
        add(
            tree,
            signatures,
            bitfield,
            content,
            n,
            size,
            &input[start..end],
        );
        at = end;
        size += len;
    }
    Told {
        read: at == input.len(),
        n: count,
        size,
    }
}

// Inner: the whole input: the count of its chunks and the chunks, onto a register that is started here.
pub fn read(
    input: &[u8],
    tree: &mut [u8],
    signatures: &mut [u8],
    bitfield: &mut [u8],
    content: &mut [u8],
) -> Told
    requires { Rooms tree.old signatures.old bitfield.old content.old }
    ensures { Read (input_of input.now) result.read
        (register_of tree.new signatures.new bitfield.new content.new result.n result.n result.size) }
{
    let nothing = Told {
        read: false,
        n: 0,
        size: 0,
    };
    if input.len() < 4 {
        return nothing;
    }
    let count = byte_strings::read_be32(input, 0);
    if 64 < count {
        return nothing;
    }
    let _ = writing::start(tree, signatures, bitfield, content);
    read_chunks(input, count, tree, signatures, bitfield, content)
}
