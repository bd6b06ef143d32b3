// A Node, read of lent bytes.
ghost use Rattle.std.specs.Prelude.{◌≡◌, ◌≤◌, length};
ghost use Rattle.record_fields.specs.Inner.{BytesInside};
ghost use Rattle.answer_types.specs.Verdict.{none};
ghost use Rattle.record_node.specs.Post.{node_told, read_node};
ghost use Rattle.record_node.specs.Inner.{PartsRead, TailRead, RawRead, RawJudged, WithPathAs, ValueReadAs, NodeFound};

use super::writers::Writers;
use answer_types::Refusal;
use record_fields::{Part, Read};
use record_format::Stat;

// The five fields, with parts of the bytes lent.
#[derive(Clone, Copy)]
pub struct Node {
    pub path: Part,
    pub value: Option<Stat>,
    pub trie: Option<Part>,
    pub writers: Writers,
    pub sequence: Option<u64>,
}

// The first three fields, the path and the Stat not yet judged.
#[derive(Clone, Copy)]
pub struct Parts {
    pub path: Option<Part>,
    pub value: Option<Part>,
    pub trie: Option<Part>,
}

// The last two fields.
#[derive(Clone, Copy)]
pub struct Tail {
    pub writers: Writers,
    pub sequence: Option<u64>,
}

// The five fields, the path and the Stat not yet judged.
#[derive(Clone, Copy)]
pub struct Raw {
    pub parts: Parts,
    pub tail: Tail,
}

// The fields 1 to 3 at the front.
fn three_parts(d: &[u8]) -> Option<Read<Parts>>
    ensures { PartsRead d.now result }
{
    let path = record_fields::bytes_row(d, 0, 1, 255)?;
    let value = record_fields::bytes_row(d, path.next, 2, 99)?;
    let trie = record_fields::bytes_row(d, value.next, 3, 1024)?;
    Some(Read {
        value: Parts {
            path: path.value,
            value: value.value,
            trie: trie.value,
        },
        next: trie.next,
    })
}

// Inner: the fields 4 and 5 from a place to the end.
fn last_fields(d: &[u8], at: usize) -> Option<Tail>
    requires { at ≤ length d.now }
    ensures { TailRead d.now at result }
{
    let writers = super::writers::writers_row(d, at)?;
    let sequence = record_fields::number_row(d, writers.next, 5, u64::MAX)?;
    if sequence.next < d.len() {
        return None;
    }
    Some(Tail {
        writers: writers.value,
        sequence: sequence.value,
    })
}

// All five fields.
fn five_fields(d: &[u8]) -> Option<Raw>
    ensures { RawRead d.now result }
{
    let parts = three_parts(d)?;
    let tail = last_fields(d, parts.next)?;
    Some(Raw {
        parts: parts.value,
        tail,
    })
}

// Inner: the path, which must be there and within the bounds.
fn with_path(d: &[u8], field: Option<Part>) -> Option<Part>
    requires { BytesInside d.now field }
    ensures { WithPathAs d.now field result }
{
    let part = field?;
    if super::judging::path_lies(d, part) {
        return Some(part);
    }
    None
}

// Inner: the Stat that a part of the bytes lent is; none where they are none, and a Stat that is none of an absent part.
fn read_value(d: &[u8], field: Option<Part>) -> Option<Option<Stat>>
    requires { BytesInside d.now field }
    ensures { ValueReadAs d.now field result }
{
    match field {
        None => Some(None),
        Some(part) => {
            let to = part.at + part.len;
            let stat = record_format::read_stat(&d[part.at..to])?;
            Some(Some(stat))
        }
    }
}

// Inner: the Node of five fields, the path and the Stat judged.
fn judged(d: &[u8], raw: Raw) -> Option<Node>
    requires { RawJudged d.now raw }
    ensures { NodeFound d.now result }
{
    let path = with_path(d, raw.parts.path)?;
    let value = read_value(d, raw.parts.value)?;
    Some(Node {
        path,
        value,
        trie: raw.parts.trie,
        writers: raw.tail.writers,
        sequence: raw.tail.sequence,
    })
}

// The Node that bytes are.
fn found_node(d: &[u8]) -> Option<Node>
    ensures { NodeFound d.now result }
{
    let raw = five_fields(d)?;
    judged(d, raw)
}

// The Node that bytes are, or number 15.
pub fn read_node(bytes: &[u8]) -> Result<Node, Refusal>
    ensures { node_told result ≡ read_node none bytes.now }
{
    found_node(bytes).ok_or(record_format::refusal(15))
}
