// Start: "only lent four buffers and writes the three headers; its one refusal is 14".
ghost use Rattle.std.specs.Prelude.{◌≤◌, length};
ghost use Rattle.answer_types.specs.Meaning.{said};
ghost use Rattle.writing.specs.Post.{lent, StartPost};
ghost use Rattle.writing.specs.Inner.{HeadersPut};

use answer_types::Refusal;

// Inner: the three headers, where each file has room for its own.
fn write_headers(tree: &mut [u8], signatures: &mut [u8], bitfield: &mut [u8])
    requires { (32 ≤ length tree.old) × (32 ≤ length signatures.old) × (32 ≤ length bitfield.old) }
    ensures { HeadersPut tree.old signatures.old bitfield.old tree.new
        signatures.new bitfield.new }
{
    let first = file_format::headers::tree_header();
    file_format::headers::write_header(tree, &first);
    let second = file_format::headers::signatures_header();
    file_format::headers::write_header(signatures, &second);
    let third = file_format::headers::bitfield_header();
    file_format::headers::write_header(bitfield, &third);
}

// A register without chunks in four buffers. The data file has no header, so its buffer may have any length.
pub fn start(
    tree: &mut [u8],
    signatures: &mut [u8],
    bitfield: &mut [u8],
    content: &[u8],
) -> Result<(), Refusal>
    ensures { StartPost (lent tree.old signatures.old bitfield.old content.now) (said result)
        (lent tree.new signatures.new bitfield.new content.now) }
{
    if tree.len() < 32 {
        return answer_types::refuse(14);
    }
    if signatures.len() < 32 {
        return answer_types::refuse(14);
    }
    if bitfield.len() < 32 {
        return answer_types::refuse(14);
    }
    write_headers(tree, signatures, bitfield);
    Ok(())
}
