// The fields of a Node in 67 numbers that are lent, one behind the other, and back.
ghost use Rattle.std.specs.Prelude.{◌≡◌, ◌∷◌, ◌+◌, ◌<◌, get_or};
ghost use Rattle.c_records.specs.Numbers.{node_numbers, number_at, part_at, bytes_at, writer_at, writers_at, stat_at, flat_at};

use super::{FlatBytes, FlatNode, FlatNumber, FlatPart, FlatStat, FlatWriter};

// The three numbers of an answer, and the 67 numbers of a Node behind them.
pub fn answered(answer: [u64; 3], flat: FlatNode) -> [u64; 70]
    ensures { result ≡ get_or answer 0 0 ∷ get_or answer 1 0 ∷ get_or answer 2 0 ∷ node_numbers flat }
{
    let p = flat.path;
    let v = flat.value;
    let t = flat.trie;
    let list = flat.writers;
    let a = list[0];
    let b = list[1];
    let c = list[2];
    let d = list[3];
    let e = list[4];
    let f = list[5];
    let g = list[6];
    let h = list[7];
    let s = flat.sequence;
    [
        answer[0],
        answer[1],
        answer[2],
        p.at,
        p.length,
        v.given,
        v.mode.given,
        v.mode.value,
        v.uid.given,
        v.uid.value,
        v.gid.given,
        v.gid.value,
        v.size.given,
        v.size.value,
        v.blocks.given,
        v.blocks.value,
        v.offset.given,
        v.offset.value,
        v.byte_offset.given,
        v.byte_offset.value,
        v.mtime.given,
        v.mtime.value,
        v.ctime.given,
        v.ctime.value,
        t.given,
        t.part.at,
        t.part.length,
        flat.count,
        a.key.at,
        a.key.length,
        a.permission.given,
        a.permission.part.at,
        a.permission.part.length,
        b.key.at,
        b.key.length,
        b.permission.given,
        b.permission.part.at,
        b.permission.part.length,
        c.key.at,
        c.key.length,
        c.permission.given,
        c.permission.part.at,
        c.permission.part.length,
        d.key.at,
        d.key.length,
        d.permission.given,
        d.permission.part.at,
        d.permission.part.length,
        e.key.at,
        e.key.length,
        e.permission.given,
        e.permission.part.at,
        e.permission.part.length,
        f.key.at,
        f.key.length,
        f.permission.given,
        f.permission.part.at,
        f.permission.part.length,
        g.key.at,
        g.key.length,
        g.permission.given,
        g.permission.part.at,
        g.permission.part.length,
        h.key.at,
        h.key.length,
        h.permission.given,
        h.permission.part.at,
        h.permission.part.length,
        s.given,
        s.value,
    ]
}

fn number_at(d: &[u64; 67], i: usize) -> FlatNumber
    requires { i + 1 < 67 }
    ensures { result ≡ number_at d.now i }
{
    FlatNumber {
        given: d[i],
        value: d[i + 1],
    }
}

fn part_at(d: &[u64; 67], i: usize) -> FlatPart
    requires { i + 1 < 67 }
    ensures { result ≡ part_at d.now i }
{
    FlatPart {
        at: d[i],
        length: d[i + 1],
    }
}

fn bytes_at(d: &[u64; 67], i: usize) -> FlatBytes
    requires { i + 2 < 67 }
    ensures { result ≡ bytes_at d.now i }
{
    let part = part_at(d, i + 1);
    FlatBytes { given: d[i], part }
}

fn writer_at(d: &[u64; 67], i: usize) -> FlatWriter
    requires { i + 4 < 67 }
    ensures { result ≡ writer_at d.now i }
{
    let key = part_at(d, i);
    let permission = bytes_at(d, i + 2);
    FlatWriter { key, permission }
}

fn writers_at(d: &[u64; 67]) -> [FlatWriter; 8]
    ensures { result ≡ writers_at d.now }
{
    [
        writer_at(d, 25),
        writer_at(d, 30),
        writer_at(d, 35),
        writer_at(d, 40),
        writer_at(d, 45),
        writer_at(d, 50),
        writer_at(d, 55),
        writer_at(d, 60),
    ]
}

fn stat_at(d: &[u64; 67]) -> FlatStat
    ensures { result ≡ stat_at d.now }
{
    let mode = number_at(d, 3);
    let uid = number_at(d, 5);
    let gid = number_at(d, 7);
    let size = number_at(d, 9);
    let blocks = number_at(d, 11);
    let offset = number_at(d, 13);
    let byte_offset = number_at(d, 15);
    let mtime = number_at(d, 17);
    let ctime = number_at(d, 19);
    FlatStat {
        given: d[2],
        mode,
        uid,
        gid,
        size,
        blocks,
        offset,
        byte_offset,
        mtime,
        ctime,
    }
}

// The fields that are lent as these numbers.
pub fn flat_at(d: &[u64; 67]) -> FlatNode
    ensures { result ≡ flat_at d.now }
{
    let path = part_at(d, 0);
    let value = stat_at(d);
    let trie = bytes_at(d, 21);
    let writers = writers_at(d);
    let sequence = number_at(d, 65);
    FlatNode {
        path,
        value,
        trie,
        count: d[24],
        writers,
        sequence,
    }
}
