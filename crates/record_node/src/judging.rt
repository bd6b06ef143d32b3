// Whether the fields of a Node are within the bounds.
ghost use Rattle.record_format.specs.Post.{Decides};
ghost use Rattle.record_node.specs.Post.{NodeFits};
ghost use Rattle.record_node.specs.Inner.{Lies, PathLies, BytesLie, WriterLies, WritersLie, ValueFits};

use super::reading::Node;
use super::writers::{Writer, Writers};
use record_fields::Part;
use record_format::Stat;

// Whether a part lies in the bytes lent.
fn lies(d: &[u8], part: Part) -> bool
    ensures { Decides (Lies d.now part) result }
{
    part.at <= d.len() && part.len <= d.len() - part.at
}

// Whether a part is a path: it has 1 to 255 bytes and starts with a slash.
pub fn path_lies(d: &[u8], part: Part) -> bool
    ensures { Decides (PathLies d.now part) result }
{
    if !lies(d, part) {
        return false;
    }
    if part.len == 0 {
        return false;
    }
    if 255 < part.len {
        return false;
    }
    d[part.at] == b'/'
}

// Whether a part is absent, or lies in the bytes lent and has at most `longest` bytes.
fn bytes_lie(d: &[u8], field: Option<Part>, longest: usize) -> bool
    ensures { Decides (BytesLie d.now field longest) result }
{
    match field {
        None => true,
        Some(part) => part.len <= longest && lies(d, part),
    }
}

// Whether a Writer has a key of 32 bytes, and a permission that is absent or has at most 16.
fn writer_lies(d: &[u8], writer: Writer) -> bool
    ensures { Decides (WriterLies d.now writer) result }
{
    if writer.key.len != 32 {
        return false;
    }
    if !lies(d, writer.key) {
        return false;
    }
    bytes_lie(d, writer.permission, 16)
}

// Whether at most 8 Writers are there, each within the bounds.
fn writers_lie(d: &[u8], writers: Writers) -> bool
    ensures { Decides (WritersLie d.now writers) result }
{
    let count = writers.count;
    let list = writers.list;
    if 8 < count {
        return false;
    }
    for i in 0..count {
        if !writer_lies(d, list[i]) {
            return false;
        }
    }
    true
}

// Whether a Stat is absent or within its bounds.
fn value_fits(value: Option<Stat>) -> bool
    ensures { Decides (ValueFits value) result }
{
    match value {
        None => true,
        Some(stat) => record_format::stat_fits(stat),
    }
}

// Whether the fields of a Node are within the bounds. A part that does not lie in the bytes lent is not.
pub fn node_fits(d: &[u8], node: Node) -> bool
    ensures { Decides (NodeFits d.now node) result }
{
    if !path_lies(d, node.path) {
        return false;
    }
    if !value_fits(node.value) {
        return false;
    }
    if !bytes_lie(d, node.trie, 1024) {
        return false;
    }
    if !record_format::number_fits(node.sequence, u64::MAX) {
        return false;
    }
    writers_lie(d, node.writers)
}
