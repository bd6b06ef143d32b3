// A Node, written into a lent buffer.
ghost use Rattle.std.specs.Prelude.{◌+◌, ◌≤◌, length};
ghost use Rattle.record_fields.specs.Fields.{part_field};
ghost use Rattle.record_fields.specs.Inner.{PutAt};
ghost use Rattle.record_format.specs.Records.{writer_bytes, writers_bytes, node_bytes, stat_part};
ghost use Rattle.record_node.specs.Post.{writer_of, writers_of, value_of, node_of, NodeWrittenAs};
ghost use Rattle.record_node.specs.Inner.{WriterRoomy, WritersRoomy, NodeRoomy};

use super::reading::Node;
use super::writers::{Writer, Writers};
use answer_types::Refusal;
use record_format::Stat;

// Inner: the bytes of a Writer at the front of a buffer that has room for them. How many they are.
fn put_writer(out: &mut [u8], d: &[u8], writer: Writer) -> usize
    requires { WriterRoomy d.now writer out.old }
    ensures { PutAt (writer_bytes (writer_of d.now writer)) out.old 0 result out.new }
{
    let key = writer.key;
    let to = key.at + key.len;
    let second = record_fields::put_part(out, 0, 1, &d[key.at..to]);
    record_fields::put_bytes(out, second, 2, d, writer.permission)
}

// Inner: the fields of all Writers at a place that has room for them. Where they end.
fn put_writers(out: &mut [u8], at: usize, d: &[u8], writers: Writers) -> usize
    requires { WritersRoomy d.now writers out.old at }
    ensures { PutAt (writers_bytes (writers_of d.now writers)) out.old at result out.new }
{
    let count = writers.count;
    let list = writers.list;
    let mut next = at;
    for i in 0..count {
        let mut record = [0u8; 70];
        let len = put_writer(&mut record, d, list[i]);
        next = record_fields::put_part(out, next, 4, &record[0..len]);
    }
    next
}

// Inner: the field of a Stat at a place that has room for it; nothing of an absent one. Where it ends.
fn put_value(out: &mut [u8], at: usize, value: Option<Stat>) -> usize
    requires { at + 110 ≤ length out.old }
    ensures { PutAt (part_field 2 (stat_part (value_of value))) out.old at result out.new }
{
    match value {
        None => at,
        Some(stat) => {
            let mut record = [0u8; 99];
            let len = record_format::put_stat(&mut record, stat);
            record_fields::put_part(out, at, 2, &record[0..len])
        }
    }
}

// Inner: the bytes of a Node at the front of a buffer that has room for them. How many they are.
fn put_node(out: &mut [u8], d: &[u8], node: Node) -> usize
    requires { NodeRoomy d.now node out.old }
    ensures { PutAt (node_bytes (node_of d.now node)) out.old 0 result out.new }
{
    let path = node.path;
    let to = path.at + path.len;
    let second = record_fields::put_part(out, 0, 1, &d[path.at..to]);
    let third = put_value(out, second, node.value);
    let fourth = record_fields::put_bytes(out, third, 3, d, node.trie);
    let fifth = put_writers(out, fourth, d, node.writers);
    record_fields::put_number(out, fifth, 5, node.sequence)
}

// The Node with these fields, whose parts lie in `bytes`, at the front of the buffer, the rest as it was: number 15, then number 14.
pub fn write_node(bytes: &[u8], node: Node, out: &mut [u8]) -> Result<u64, Refusal>
    ensures { NodeWrittenAs bytes.now node out.old result out.new }
{
    if !super::judging::node_fits(bytes, node) {
        return Err(record_format::refusal(15));
    }
    let mut record = [0u8; 2070];
    let len = put_node(&mut record, bytes, node);
    record_format::give(&record[0..len], out)
}
