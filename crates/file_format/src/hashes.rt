// The hashes of leaves and parents, which name the empty key.
ghost use Rattle.std.specs.Prelude.{◌≡◌};
ghost use Rattle.blake2b.specs.Hash.{node_hash};
ghost use Rattle.file_format.specs.Messages.{leaf_message, parent_message};

// "Leaf hash: bytes 00, 8-byte chunk length, chunk". The chunk is hashed from where it lies.
#[tactic(auto, using(blake2b::proofs::Laws::node_keyless, crate::proofs::Places::leaf_prefix))]
pub fn leaf_hash(chunk: &[u8]) -> [u8; 32]
    ensures { result ≡ node_hash (leaf_message chunk.now) }
{
    let length = byte_strings::be64(chunk.len() as u64);
    let mut prefix = [0u8; 9];
    byte_strings::copy_to(&mut prefix, 1, &length);
    blake2b::hash_parts(b"", &prefix, chunk)
}

// "Parent hash: 01, 8-byte sum of both lengths, left hash, right hash."
pub fn parent_hash(sum: u64, left: &[u8; 32], right: &[u8; 32]) -> [u8; 32]
    ensures { result ≡ node_hash (parent_message sum left.now right.now) }
{
    let length = byte_strings::be64(sum);
    let mut message = [1u8; 73];
    byte_strings::copy_to(&mut message, 1, &length);
    byte_strings::copy_to(&mut message, 9, left);
    byte_strings::copy_to(&mut message, 41, right);
    blake2b::hash_parts(b"", b"", &message)
}
