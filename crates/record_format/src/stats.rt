// Stat: nine fields that are numbers.
ghost use Rattle.std.specs.Prelude.{◌≡◌, ◌+◌, ◌≤◌, ◌<◌, length};
ghost use Rattle.record_fields.specs.Fields.{Most};
ghost use Rattle.record_fields.specs.Inner.{number_of, PutAt};
ghost use Rattle.record_format.specs.Records.{stat_bytes, StatWithin, RowsWithin, rows_of};
ghost use Rattle.record_format.specs.Inner.{ThreeRead, ThreeMost, three_fields, three_of, with_mode};
ghost use Rattle.record_format.specs.Post.{Decides, StatReadAs, stat_of};

use record_fields::Read;

// The nine fields, each there or absent.
#[derive(Clone, Copy)]
pub struct Stat {
    pub mode: Option<u64>,
    pub uid: Option<u64>,
    pub gid: Option<u64>,
    pub size: Option<u64>,
    pub blocks: Option<u64>,
    pub offset: Option<u64>,
    pub byte_offset: Option<u64>,
    pub mtime: Option<u64>,
    pub ctime: Option<u64>,
}

// Three fields in rising number.
type Three = (Option<u64>, Option<u64>, Option<u64>);

// Inner: the fields of the numbers k, k + 1 and k + 2, each at most `most`, at a place within d.
fn three_rows(d: &[u8], at: usize, k: u8, most: u64) -> Option<Read<Three>>
    requires { (at ≤ length d.now) × (k < 14) }
    ensures { ThreeRead d.now at k most result }
{
    let first = record_fields::number_row(d, at, k, most)?;
    let second = record_fields::number_row(d, first.next, k + 1, most)?;
    let third = record_fields::number_row(d, second.next, k + 2, most)?;
    Some(Read {
        value: (first.value, second.value, third.value),
        next: third.next,
    })
}

// A Stat whose mode is there.
fn with_mode(stat: Stat) -> Option<Stat>
    ensures { result ≡ with_mode stat }
{
    stat.mode?;
    Some(stat)
}

// The Stat that bytes are, from its first to its last.
pub fn read_stat(d: &[u8]) -> Option<Stat>
    ensures { StatReadAs d.now result }
{
    let first = three_rows(d, 0, 1, 4294967295)?;
    let second = three_rows(d, first.next, 4, u64::MAX)?;
    let third = three_rows(d, second.next, 7, u64::MAX)?;
    if third.next < d.len() {
        return None;
    }
    let (mode, uid, gid) = first.value;
    let (size, blocks, offset) = second.value;
    let (byte_offset, mtime, ctime) = third.value;
    with_mode(Stat {
        mode,
        uid,
        gid,
        size,
        blocks,
        offset,
        byte_offset,
        mtime,
        ctime,
    })
}

// Whether a field is absent or at most `most`.
pub fn number_fits(field: Option<u64>, most: u64) -> bool
    ensures { Decides (Most most (number_of field)) result }
{
    match field {
        None => true,
        Some(x) => x <= most,
    }
}

// Whether each of three fields is absent or at most `most`.
fn three_fit(fields: Three, most: u64) -> bool
    ensures { Decides (ThreeMost most (three_of fields)) result }
{
    number_fits(fields.0, most) && number_fits(fields.1, most) && number_fits(fields.2, most)
}

// Whether each field of a Stat is absent or within its bound.
fn rows_fit(stat: Stat) -> bool
    ensures { Decides (RowsWithin 1 (rows_of (stat_of stat))) result }
{
    three_fit((stat.mode, stat.uid, stat.gid), 4294967295)
        && three_fit((stat.size, stat.blocks, stat.offset), u64::MAX)
        && three_fit((stat.byte_offset, stat.mtime, stat.ctime), u64::MAX)
}

// Whether the fields of a Stat are within the bounds.
pub fn stat_fits(stat: Stat) -> bool
    ensures { Decides (StatWithin (stat_of stat)) result }
{
    stat.mode.is_some() && rows_fit(stat)
}

// Inner: the fields of the numbers k, k + 1 and k + 2 at a place that has room for them. Where they end.
fn put_three(out: &mut [u8], at: usize, k: u8, fields: Three) -> usize
    requires { (k < 14) × (at + 33 ≤ length out.old) }
    ensures { PutAt (three_fields k (three_of fields)) out.old at result out.new }
{
    let second = record_fields::put_number(out, at, k, fields.0);
    let third = record_fields::put_number(out, second, k + 1, fields.1);
    record_fields::put_number(out, third, k + 2, fields.2)
}

// Inner: the bytes of a Stat at the front of a buffer that has room for them. How many they are.
pub fn put_stat(out: &mut [u8], stat: Stat) -> usize
    requires { 99 ≤ length out.old }
    ensures { PutAt (stat_bytes (stat_of stat)) out.old 0 result out.new }
{
    let fourth = put_three(out, 0, 1, (stat.mode, stat.uid, stat.gid));
    let seventh = put_three(out, fourth, 4, (stat.size, stat.blocks, stat.offset));
    put_three(out, seventh, 7, (stat.byte_offset, stat.mtime, stat.ctime))
}
