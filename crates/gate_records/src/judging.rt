// Texts, and records of lent bytes, written and read.
use super::given::{behind, number};
use super::making::turn;
use super::show::Shown;
use super::{given, show};
use answer_types::Refusal;
use gate_printing::{Said, print};

// What is done with what a step gives, besides asking a register.
#[derive(Clone, Copy)]
pub enum Judging {
    Text,
    WriteNode,
    WriteHeader,
    ReadNode,
    ReadHeader,
    Beginnings,
    Spoilt,
}

// What bytes may be a record of: by its number, 0 for a Header.
#[derive(Clone, Copy)]
enum Record {
    Header,
    Node,
}

impl From<u64> for Record {
    fn from(number: u64) -> Record {
        match number {
            0 => Record::Header,
            _ => Record::Node,
        }
    }
}

pub fn taken(step: &[u8], judging: Judging) {
    match judging {
        Judging::Text => gate_printing::text(step),
        Judging::WriteNode => write_node(step),
        Judging::WriteHeader => write_header(step),
        Judging::ReadNode => read_node(step),
        Judging::ReadHeader => read_header(step),
        Judging::Beginnings => beginnings(Record::from(number(step, 0)), behind(step, 1)),
        Judging::Spoilt => {
            let record = Record::from(number(step, 0));
            spoilt(record, number(step, 1), behind(step, 2))
        }
    }
}

// A Node is written into the front of a buffer of a5, which is shown up to the length lent.
fn write_node(step: &[u8]) {
    let mut out = [0xa5u8; 4096];
    let end = number(step, 67).min(4096) as usize;
    let lent = &mut out[0..end];
    let written = record_node::write_node(behind(step, 68), given::node(step), lent);
    wrote(written, lent);
}

fn write_header(step: &[u8]) {
    let mut out = [0xa5u8; 4096];
    let end = number(step, 0).min(4096) as usize;
    let lent = &mut out[0..end];
    let written = record_format::write_header(behind(step, 1), lent);
    wrote(written, lent);
}

fn wrote(written: Result<u64, Refusal>, out: &[u8]) {
    match written {
        Err(refusal) => print(Said(refusal)),
        Ok(count) => {
            print(format_args!("{count} {}", Shown(given::first(out, count))));
        }
    }
    print(format_args!(" {}", Shown(out)));
}

fn read_node(bytes: &[u8]) {
    match record_node::read_node(bytes) {
        Err(refusal) => print(Said(refusal)),
        Ok(node) => show::fields(bytes, node),
    }
}

fn read_header(bytes: &[u8]) {
    match record_format::read_header(bytes) {
        Err(refusal) => print(Said(refusal)),
        Ok(_) => {
            print(format_args!("content {}", Shown(record_parts::header_content(bytes))));
        }
    }
}

// Whether bytes are such a record.
fn is_one(record: Record, bytes: &[u8]) -> bool {
    match record {
        Record::Header => record_format::read_header(bytes).is_ok(),
        Record::Node => record_node::read_node(bytes).is_ok(),
    }
}

// 1 where bytes are such a record, 0 where they are none.
fn judge(record: Record, bytes: &[u8]) {
    print(u8::from(is_one(record, bytes)));
}

// Each beginning of a record.
fn beginnings(record: Record, bytes: &[u8]) {
    for end in 0..=bytes.len() {
        judge(record, &bytes[0..end]);
    }
}

// Each byte of a record turned by itself.
fn spoilt(record: Record, bits: u64, bytes: &[u8]) {
    let mut copy = [0u8; 512];
    if let Some(turned) = copy.get_mut(0..bytes.len()) {
        turned.copy_from_slice(bytes);
        for at in 0..bytes.len() {
            turn(turned, at, bits);
            judge(record, turned);
            turn(turned, at, bits);
        }
    }
}
