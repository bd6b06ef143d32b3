// The register that paths are sought in.
use super::given::{Told, number};

// The images of the register, by their numbers from 0 on; any other number is the data's too.
enum Image {
    Tree,
    Signatures,
    Bitfield,
    Data,
}

impl From<u64> for Image {
    fn from(number: u64) -> Image {
        match number {
            0 => Image::Tree,
            1 => Image::Signatures,
            2 => Image::Bitfield,
            _ => Image::Data,
        }
    }
}

pub fn started(
    tree: &mut [u8],
    signatures: &mut [u8],
    bitfield: &mut [u8],
    data: &mut [u8],
) -> Told {
    let _ = writing::start(tree, signatures, bitfield, data);
    Told::default()
}

// One more chunk, with a signature of zeros.
pub fn appended(
    tree: &mut [u8],
    signatures: &mut [u8],
    bitfield: &mut [u8],
    data: &mut [u8],
    told: Told,
    chunk: &[u8],
) -> Told {
    let Told { n, size } = told;
    let _ = writing::append(tree, signatures, bitfield, data, n, n, size, chunk);
    let more = n.wrapping_add(1);
    let after = size.wrapping_add(chunk.len() as u64);
    let _ = writing::store_signature(tree, signatures, bitfield, data, more, n, after, &[0; 64]);
    Told {
        n: more,
        size: after,
    }
}

// A byte of an image turned: which image, the place, the bits.
pub fn turned(
    tree: &mut [u8],
    signatures: &mut [u8],
    bitfield: &mut [u8],
    data: &mut [u8],
    told: Told,
    step: &[u8],
) -> Told {
    let at = number(step, 1) as usize;
    let bits = number(step, 2);
    match Image::from(number(step, 0)) {
        Image::Tree => turn(tree, at, bits),
        Image::Signatures => turn(signatures, at, bits),
        Image::Bitfield => turn(bitfield, at, bits),
        Image::Data => turn(data, at, bits),
    }
    told
}

pub fn turn(bytes: &mut [u8], at: usize, bits: u64) {
    if let Some(byte) = bytes.get_mut(at) {
        *byte ^= (bits % 256) as u8;
    }
}
