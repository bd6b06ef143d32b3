// How the fields of a record are shown.
use gate_printing::{InHex, front, print};
use record_fields::Part;
use record_format::Stat;
use record_node::{Node, Writers};
use record_parts::{Field, node_part};
use std::fmt;
use std::fmt::Display;

// A part in hexadecimal; of more than 40 bytes its length and the first 8 bytes of its hash.
#[derive(Clone, Copy)]
pub struct Shown<'a>(pub &'a [u8]);

impl Display for Shown<'_> {
    fn fmt<W: fmt::Write>(&self, f: &mut fmt::Formatter<W>) -> fmt::Result {
        let bytes = self.0;
        if bytes.is_empty() {
            write!(f, "empty")
        } else if bytes.len() <= 40 {
            write!(f, "{}", InHex(bytes))
        } else {
            let hash = blake2b::hash_parts(b"", b"", bytes);
            write!(f, "{}:{}", bytes.len(), front(&hash, 8))
        }
    }
}

// A part of the Node that bytes are, where the field is there.
fn given(bytes: &[u8], field: Option<Part>, which: Field) {
    match field {
        None => print("-"),
        Some(_) => print(Shown(node_part(bytes, which))),
    }
}

#[derive(Clone, Copy)]
struct Numeral(Option<u64>);

impl Display for Numeral {
    fn fmt<W: fmt::Write>(&self, f: &mut fmt::Formatter<W>) -> fmt::Result {
        match self.0 {
            None => write!(f, "-"),
            Some(x) => write!(f, "{x}"),
        }
    }
}

fn value(v: Option<Stat>) {
    match v {
        None => print("-"),
        Some(stat) => {
            print(Numeral(stat.mode));
            let others = [
                stat.uid,
                stat.gid,
                stat.size,
                stat.blocks,
                stat.offset,
                stat.byte_offset,
                stat.mtime,
                stat.ctime,
            ];
            for field in others {
                print(format_args!(",{}", Numeral(field)));
            }
        }
    }
}

fn writers(bytes: &[u8], several: Writers) {
    let list = several.list;
    if several.count == 0 {
        print("-");
    }
    for (i, one) in list.iter().enumerate().take(several.count) {
        if 0 < i {
            print(";");
        }
        print(format_args!("{}/", Shown(node_part(bytes, Field::Key(i)))));
        given(bytes, one.permission, Field::Permission(i));
    }
}

// The fields of the Node that bytes are, its parts as they are handed back.
pub fn fields(bytes: &[u8], node: Node) {
    print(format_args!("path {}", Shown(node_part(bytes, Field::Path))));
    print(" stat ");
    value(node.value);
    print(" trie ");
    given(bytes, node.trie, Field::Trie);
    print(" writers ");
    writers(bytes, node.writers);
    print(format_args!(" sequence {}", Numeral(node.sequence)));
}
