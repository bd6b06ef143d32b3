// Labels: the hash of a root hash under the key of whoever makes them.
#![tactic(auto)]

ghost use Rattle.root_label.specs.Post.{LabelledAs};

use answer_types::{Place, Refusal};

// The 32-byte hash of a root hash under a key, or refusal 17 where the key has more than 64 bytes.
pub fn label(root: &[u8; 32], key: &[u8]) -> Result<[u8; 32], Refusal>
    ensures { LabelledAs root.now key.now result }
{
    if 64 < key.len() {
        return Err(Refusal {
            number: 17,
            place: Place::Nowhere,
        });
    }
    Ok(blake2b::hash_parts(key, b"", root))
}
