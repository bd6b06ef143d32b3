// Making a partial copy: "headers, zero entries, zero bits and zero data". Everything is judged before a byte is written.
#![tactic(auto)]

ghost use Rattle.std.specs.Prelude.{◌≡◌, ◌++◌, ◌+◌, ◌≤◌, length};
ghost use Rattle.answer_types.specs.Meaning.{said};
ghost use Rattle.byte_strings.specs.Lists.{put, zeros};
ghost use Rattle.copy_checks.specs.Copy.{files_of, files_lent, copy_of};
ghost use Rattle.copy_make.specs.Make.{make_verdict, made_copy, MakePost, Roomy};

use answer_types::Refusal;

// The checks 2 and 14.
fn judge(tree: &[u8], bitfield: &[u8], content: &[u8], n: u64, size: u64) -> Result<(), Refusal>
    ensures { said result ≡ make_verdict (copy_of tree.now bitfield.now content.now n size) }
{
    if 1048576 < n {
        return answer_types::refuse(2);
    }
    if !copy_checks::long_right(tree, bitfield, content, n, size) {
        return answer_types::refuse(14);
    }
    Ok(())
}

// Inner: a header and zeros behind it, at the front of a file that has room for them.
fn write_blank(xs: &mut [u8], header: &[u8; 32], count: usize)
    requires { 32 + count ≤ length xs.old }
    ensures { xs.new ≡ put xs.old 0 (header.now ++ zeros count) }
{
    byte_strings::copy_to(xs, 0, header);
    byte_strings::clear(xs, 32, count);
}

// Inner: the three files of a new copy, where there is room for them.
fn write_files(tree: &mut [u8], bitfield: &mut [u8], content: &mut [u8], n: u64, size: u64)
    requires { Roomy (copy_of tree.old bitfield.old content.old n size) }
    ensures { files_lent tree.new bitfield.new content.new ≡
        files_of (made_copy (copy_of tree.old bitfield.old content.old n size)) }
{
    let first = file_format::headers::tree_header();
    write_blank(tree, &first, file_format::sizes::used_tree(n) - 32);
    let second = file_format::headers::bitfield_header();
    write_blank(bitfield, &second, file_format::sizes::used_bitfield(n) - 32);
    byte_strings::clear(content, 0, size as usize);
}

// A copy for a count of chunks and a data size, of which nothing is known yet.
pub fn make_copy(
    tree: &mut [u8],
    bitfield: &mut [u8],
    content: &mut [u8],
    n: u64,
    size: u64,
) -> Result<(), Refusal>
    ensures { MakePost (copy_of tree.old bitfield.old content.old n size) (said result)
        (files_lent tree.new bitfield.new content.new) }
{
    judge(tree, bitfield, content, n, size)?;
    write_files(tree, bitfield, content, n, size);
    Ok(())
}
