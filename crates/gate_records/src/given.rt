// What a step gives: numbers, and the bytes behind them.
ghost use Rattle.std.specs.Prelude.{◌<◌};

use record_fields::Part;
use record_format::Stat;
use record_node::{Node, Writer, Writers};

// What is told of the register that is made.
#[derive(Clone, Copy, Default)]
pub struct Told {
    pub n: u64,
    pub size: u64,
}

// The number k of a step; 0 where it has none.
pub fn number(step: &[u8], k: usize) -> u64
    requires { k < 100 }
{
    if step.len() < 8 * k + 8 {
        return 0;
    }
    byte_strings::read_be64(step, 8 * k)
}

// The bytes behind k numbers.
pub fn behind(step: &[u8], k: usize) -> &[u8]
    requires { k < 100 }
{
    step.get(8 * k..).unwrap_or(&[])
}

// The first bytes; all where there are fewer.
pub fn first(bytes: &[u8], count: u64) -> &[u8] {
    bytes.get(0..count as usize).unwrap_or(bytes)
}

// A field that is a number: whether it is there, and the number.
fn field(step: &[u8], k: usize) -> Option<u64>
    requires { k < 90 }
{
    if number(step, k) == 0 {
        return None;
    }
    Some(number(step, k + 1))
}

fn part(step: &[u8], k: usize) -> Part
    requires { k < 90 }
{
    Part {
        at: number(step, k) as usize,
        len: number(step, k + 1) as usize,
    }
}

// A field that is a part: whether it is there, and the part.
fn bytes(step: &[u8], k: usize) -> Option<Part>
    requires { k < 80 }
{
    if number(step, k) == 0 {
        return None;
    }
    Some(part(step, k + 1))
}

fn value(step: &[u8]) -> Option<Stat> {
    if number(step, 2) == 0 {
        return None;
    }
    Some(Stat {
        mode: field(step, 3),
        uid: field(step, 5),
        gid: field(step, 7),
        size: field(step, 9),
        blocks: field(step, 11),
        offset: field(step, 13),
        byte_offset: field(step, 15),
        mtime: field(step, 17),
        ctime: field(step, 19),
    })
}

fn writer(step: &[u8], k: usize) -> Writer
    requires { k < 70 }
{
    Writer {
        key: part(step, k),
        permission: bytes(step, k + 2),
    }
}

fn writers(step: &[u8]) -> Writers {
    let mut list = [writer(step, 27); 8];
    for i in 1..8 {
        list[i] = writer(step, 27 + 5 * i);
    }
    let count = number(step, 26) as usize;
    Writers { count, list }
}

// The Node of 67 numbers: the path, whether there is a Stat and its nine fields, the trie, the sequence, the count of the Writers, and eight of
// them.
pub fn node(step: &[u8]) -> Node {
    Node {
        path: part(step, 0),
        value: value(step),
        trie: bytes(step, 21),
        writers: writers(step),
        sequence: field(step, 24),
    }
}
