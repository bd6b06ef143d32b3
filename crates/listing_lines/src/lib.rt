// The listing's lines, written into a buffer: the input is read into a register, which the library's own calls build, and the
// lines are printed from its stored tree.
#![tactic(auto)]

mod build;
mod lines;
mod text;

ghost use Rattle.std.specs.Prelude.{◌≡◌, length};
ghost use Rattle.listing_lines.specs.Lines.{listing};
ghost use Rattle.listing_lines.specs.Inner.{Put, Rooms};
ghost use Rattle.listing_lines.specs.Post.{Listed};

use crate::build::read;
use crate::lines::put_lines;
use crate::text::put_text;
use answer_types::{Place, Refusal};

// Inner: the lines into a buffer that has room for those of every input.
fn put_listing(
    input: &[u8],
    text: &mut [u8],
    tree: &mut [u8],
    signatures: &mut [u8],
    bitfield: &mut [u8],
    content: &mut [u8],
) -> usize
    requires { (length text.old ≡ 9371) × Rooms tree.old signatures.old bitfield.old content.old }
    ensures { Put text.old 0 9371 (listing input.now) result text.new }
{
    let told = read(input, tree, signatures, bitfield, content);
    if !told.read {
        return put_text(text, 0, b"refused input\n");
    }
    put_lines(text, tree, told.n, told.size)
}

// Inner: the same, and the lines copied to a buffer of any length.
fn list_on(
    input: &[u8],
    out: &mut [u8],
    text: &mut [u8],
    tree: &mut [u8],
    signatures: &mut [u8],
    bitfield: &mut [u8],
    content: &mut [u8],
) -> Result<usize, Refusal>
    requires { (length text.old ≡ 9371) × Rooms tree.old signatures.old bitfield.old content.old }
    ensures { Listed input.now out.old result out.new }
{
    let len = put_listing(input, text, tree, signatures, bitfield, content);
    if out.len() < len {
        return Err(Refusal {
            number: 14,
            place: Place::Nowhere,
        });
    }
    byte_strings::copy_to(out, 0, &text[0..len]);
    Ok(len)
}

// The listing of an input at the front of a buffer, and its length; refusal 14 where the buffer is too short, which then keeps its bytes.
pub fn list(input: &[u8], out: &mut [u8]) -> Result<usize, Refusal>
    ensures { Listed input.now out.old result out.new }
{
    let mut text = [0u8; 9371];
    let mut tree = [0u8; 5120];
    let mut signatures = [0u8; 4160];
    let mut bitfield = [0u8; 3360];
    let mut content = [0u8; 4096];
    list_on(
        input,
        out,
        &mut text,
        &mut tree,
        &mut signatures,
        &mut bitfield,
        &mut content,
    )
}
