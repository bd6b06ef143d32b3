// The fields of a Node as numbers alone, for languages that have no enums: a field that may be absent says by a number whether it is there.
// From the library's fields to these, and back.
#![tactic(auto)]

mod numbers;

ghost use Rattle.std.specs.Prelude.{◌≡◌};
ghost use Rattle.record_node.specs.Post.{no_node};
ghost use Rattle.c_records.specs.Flat.{flat_number, flat_part, flat_bytes, flat_writer, flat_writers, flat_value, flat_node};
ghost use Rattle.c_records.specs.Flat.{number_in, part_in, bytes_in, writer_in, writers_in, stat_in, value_in, node_in};

pub use numbers::{answered, flat_at};
use record_fields::Part;
use record_format::Stat;
use record_node::{Node, Writer, Writers};

// A number's field: `given` is 0 where it is absent, and `value` is 0 then. C reads these fields, here and below, as numbers one behind the other, so a flag
// stands beside the value.
#[derive(Clone, Copy)]
pub struct FlatNumber {
    pub given: u64,
    pub value: u64,
}

// A part of the bytes lent: where it begins, and how long it is.
#[derive(Clone, Copy)]
pub struct FlatPart {
    pub at: u64,
    pub length: u64,
}

// A part's field, all 0 where it is absent.
#[derive(Clone, Copy)]
pub struct FlatBytes {
    pub given: u64,
    pub part: FlatPart,
}

#[derive(Clone, Copy)]
pub struct FlatWriter {
    pub key: FlatPart,
    pub permission: FlatBytes,
}

// A Stat's field, all 0 where it is absent.
#[derive(Clone, Copy)]
pub struct FlatStat {
    pub given: u64,
    pub mode: FlatNumber,
    pub uid: FlatNumber,
    pub gid: FlatNumber,
    pub size: FlatNumber,
    pub blocks: FlatNumber,
    pub offset: FlatNumber,
    pub byte_offset: FlatNumber,
    pub mtime: FlatNumber,
    pub ctime: FlatNumber,
}

// As many Writers as are counted.
#[derive(Clone, Copy)]
pub struct FlatNode {
    pub path: FlatPart,
    pub value: FlatStat,
    pub trie: FlatBytes,
    pub count: u64,
    pub writers: [FlatWriter; 8],
    pub sequence: FlatNumber,
}

impl From<Option<u64>> for FlatNumber {
    ghost from_gives = { λ field flat. flat ≡ flat_number field };

    fn from(field: Option<u64>) -> FlatNumber {
        match field {
            None => FlatNumber { given: 0, value: 0 },
            Some(value) => FlatNumber { given: 1, value },
        }
    }
}

impl From<Part> for FlatPart {
    ghost from_gives = { λ part flat. flat ≡ flat_part part };

    fn from(part: Part) -> FlatPart {
        FlatPart {
            at: part.at as u64,
            length: part.len as u64,
        }
    }
}

impl From<Option<Part>> for FlatBytes {
    ghost from_gives = { λ field flat. flat ≡ flat_bytes field };

    fn from(field: Option<Part>) -> FlatBytes {
        match field {
            None => NO_BYTES,
            Some(part) => FlatBytes {
                given: 1,
                part: FlatPart::from(part),
            },
        }
    }
}

impl From<Writer> for FlatWriter {
    ghost from_gives = { λ writer flat. flat ≡ flat_writer writer };

    fn from(writer: Writer) -> FlatWriter {
        FlatWriter {
            key: FlatPart::from(writer.key),
            permission: FlatBytes::from(writer.permission),
        }
    }
}

fn flat_writers(list: [Writer; 8]) -> [FlatWriter; 8]
    ensures { result ≡ flat_writers list }
{
    list.map(|writer| FlatWriter::from(writer))
}

const NO_NUMBER: FlatNumber = FlatNumber { given: 0, value: 0 };

const NO_PART: FlatPart = FlatPart { at: 0, length: 0 };

const NO_BYTES: FlatBytes = FlatBytes {
    given: 0,
    part: NO_PART,
};

const NOBODY: FlatWriter = FlatWriter {
    key: NO_PART,
    permission: NO_BYTES,
};

// A Stat that is absent.
const NO_STAT: FlatStat = FlatStat {
    given: 0,
    mode: NO_NUMBER,
    uid: NO_NUMBER,
    gid: NO_NUMBER,
    size: NO_NUMBER,
    blocks: NO_NUMBER,
    offset: NO_NUMBER,
    byte_offset: NO_NUMBER,
    mtime: NO_NUMBER,
    ctime: NO_NUMBER,
};

impl From<Option<Stat>> for FlatStat {
    ghost from_gives = { λ value flat. flat ≡ flat_value value };

    fn from(value: Option<Stat>) -> FlatStat {
        match value {
            None => NO_STAT,
            Some(stat) => FlatStat {
                given: 1,
                mode: FlatNumber::from(stat.mode),
                uid: FlatNumber::from(stat.uid),
                gid: FlatNumber::from(stat.gid),
                size: FlatNumber::from(stat.size),
                blocks: FlatNumber::from(stat.blocks),
                offset: FlatNumber::from(stat.offset),
                byte_offset: FlatNumber::from(stat.byte_offset),
                mtime: FlatNumber::from(stat.mtime),
                ctime: FlatNumber::from(stat.ctime),
            },
        }
    }
}

// The fields of no Node, all 0: what C is given beside a refusal.
pub fn no_fields() -> FlatNode
    ensures { result ≡ flat_node no_node }
{
    FlatNode {
        path: NO_PART,
        value: NO_STAT,
        trie: NO_BYTES,
        count: 0,
        writers: [NOBODY; 8],
        sequence: NO_NUMBER,
    }
}

// The fields of a Node as numbers.
impl From<Node> for FlatNode {
    ghost from_gives = { λ node flat. flat ≡ flat_node node };

    fn from(node: Node) -> FlatNode {
        FlatNode {
            path: FlatPart::from(node.path),
            value: FlatStat::from(node.value),
            trie: FlatBytes::from(node.trie),
            count: node.writers.count as u64,
            writers: flat_writers(node.writers.list),
            sequence: FlatNumber::from(node.sequence),
        }
    }
}

impl From<FlatNumber> for Option<u64> {
    ghost from_gives = { λ flat field. field ≡ number_in flat };

    fn from(flat: FlatNumber) -> Option<u64> {
        if flat.given == 0 {
            return None;
        }
        Some(flat.value)
    }
}

// A part by its numbers.
impl From<FlatPart> for Part {
    ghost from_gives = { λ flat part. part ≡ part_in flat };

    fn from(flat: FlatPart) -> Part {
        Part {
            at: flat.at as usize,
            len: flat.length as usize,
        }
    }
}

impl From<FlatBytes> for Option<Part> {
    ghost from_gives = { λ flat field. field ≡ bytes_in flat };

    fn from(flat: FlatBytes) -> Option<Part> {
        if flat.given == 0 {
            return None;
        }
        Some(Part::from(flat.part))
    }
}

impl From<FlatWriter> for Writer {
    ghost from_gives = { λ flat writer. writer ≡ writer_in flat };

    fn from(flat: FlatWriter) -> Writer {
        Writer {
            key: Part::from(flat.key),
            permission: Option::<Part>::from(flat.permission),
        }
    }
}

fn writers_in(list: [FlatWriter; 8]) -> [Writer; 8]
    ensures { result ≡ writers_in list }
{
    list.map(|flat| Writer::from(flat))
}

fn stat_in(flat: FlatStat) -> Stat
    ensures { result ≡ stat_in flat }
{
    Stat {
        mode: Option::<u64>::from(flat.mode),
        uid: Option::<u64>::from(flat.uid),
        gid: Option::<u64>::from(flat.gid),
        size: Option::<u64>::from(flat.size),
        blocks: Option::<u64>::from(flat.blocks),
        offset: Option::<u64>::from(flat.offset),
        byte_offset: Option::<u64>::from(flat.byte_offset),
        mtime: Option::<u64>::from(flat.mtime),
        ctime: Option::<u64>::from(flat.ctime),
    }
}

impl From<FlatStat> for Option<Stat> {
    ghost from_gives = { λ flat value. value ≡ value_in flat };

    fn from(flat: FlatStat) -> Option<Stat> {
        if flat.given == 0 {
            return None;
        }
        Some(stat_in(flat))
    }
}

// The Node whose fields these numbers are.
impl From<FlatNode> for Node {
    ghost from_gives = { λ flat node. node ≡ node_in flat };

    fn from(flat: FlatNode) -> Node {
        Node {
            path: Part::from(flat.path),
            value: Option::<Stat>::from(flat.value),
            trie: Option::<Part>::from(flat.trie),
            writers: Writers {
                count: flat.count as usize,
                list: writers_in(flat.writers),
            },
            sequence: Option::<u64>::from(flat.sequence),
        }
    }
}
