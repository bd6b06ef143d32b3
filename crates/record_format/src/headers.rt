// The Header, chunk 0: type "hyperdrive" and 32 content bytes.
ghost use Rattle.std.specs.Prelude.{◌≡◌};
ghost use Rattle.answer_types.specs.Verdict.{none};
ghost use Rattle.record_format.specs.Post.{header_start, header_told, read_header, HeaderWrittenAs};

use answer_types::Refusal;
use record_fields::Part;

const HEADER_START: [u8; 14] = *b"\x0a\x0ahyperdrive\x12\x20";

// What stands before the content bytes.
fn first_bytes() -> [u8; 14]
    ensures { result ≡ header_start }
{
    HEADER_START
}

// Where the content bytes lie of the Header that bytes are, or number 15.
pub fn read_header(bytes: &[u8]) -> Result<Part, Refusal>
    ensures { header_told result ≡ read_header none bytes.now }
{
    if bytes.len() != 46 {
        return Err(super::answers::refusal(15));
    }
    let start = first_bytes();
    if !byte_strings::same(&bytes[0..14], &start) {
        return Err(super::answers::refusal(15));
    }
    Ok(Part { at: 14, len: 32 })
}

// The Header with these content bytes, at the front of the buffer, the rest as it was: number 15, then number 14.
pub fn write_header(content: &[u8], out: &mut [u8]) -> Result<u64, Refusal>
    ensures { HeaderWrittenAs content.now out.old result out.new }
{
    if content.len() != 32 {
        return Err(super::answers::refusal(15));
    }
    if out.len() < 46 {
        return Err(super::answers::refusal(14));
    }
    let start = first_bytes();
    byte_strings::copy_to(out, 0, &start);
    byte_strings::copy_to(out, 14, content);
    Ok(46)
}
