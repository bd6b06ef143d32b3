// The Writers of a Node, read at a place of the bytes lent.
ghost use Rattle.std.specs.Prelude.{◌≡◌, ◌≤◌, length};
ghost use Rattle.record_node.specs.Inner.{WithKeyAs, WriterReadAs, OneRead, WritersRead};
ghost use Rattle.record_node.specs.Post.{no_writer};

use record_fields::{Part, Read};

// A key and a permission, parts of the bytes lent.
#[derive(Clone, Copy)]
pub struct Writer {
    pub key: Part,
    pub permission: Option<Part>,
}

// At most 8 of them; those behind the count say nothing.
#[derive(Clone, Copy)]
pub struct Writers {
    pub count: usize,
    pub list: [Writer; 8],
}

// A Writer whose key is there, with its 32 bytes.
fn with_key(key: Option<Part>, permission: Option<Part>) -> Option<Writer>
    ensures { WithKeyAs key permission result }
{
    let key = key?;
    if key.len == 32 {
        return Some(Writer { key, permission });
    }
    None
}

// Inner: the Writer that the bytes from a place on are.
fn read_writer(d: &[u8], at: usize) -> Option<Writer>
    requires { at ≤ length d.now }
    ensures { WriterReadAs d.now at result }
{
    let key = record_fields::bytes_row(d, at, 1, 32)?;
    let permission = record_fields::bytes_row(d, key.next, 2, 16)?;
    if permission.next < d.len() {
        return None;
    }
    with_key(key.value, permission.value)
}

// Inner: one more Writer at a place: none where its field is badly written, and a Writer that is none where there is no such field. In line, since around a
// call of it the loop over eight of them is unrolled, which is three times the code.
#[inline(always)]
fn one_writer(d: &[u8], at: usize) -> Option<Read<Option<Writer>>>
    requires { at ≤ length d.now }
    ensures { OneRead d.now at result }
{
    let field = record_fields::bytes_row(d, at, 4, 70)?;
    match field.value {
        None => Some(Read {
            value: None,
            next: at,
        }),
        Some(part) => {
            let to = part.at + part.len;
            let writer = read_writer(&d[0..to], part.at)?;
            Some(Read {
                value: Some(writer),
                next: field.next,
            })
        }
    }
}

// Nobody: what stands behind the count.
pub fn nobody() -> Writer
    ensures { result ≡ no_writer }
{
    Writer {
        key: Part { at: 0, len: 0 },
        permission: None,
    }
}

// Inner: all Writers at a place, one behind the other; a ninth is one too many.
pub fn writers_row(d: &[u8], at: usize) -> Option<Read<Writers>>
    requires { at ≤ length d.now }
    ensures { WritersRead d.now at result }
{
    let mut list = [nobody(); 8];
    let mut next = at;
    for count in 0..8 {
        let row = one_writer(d, next)?;
        match row.value {
            None => {
                return Some(Read {
                    value: Writers { count, list },
                    next,
                });
            }
            Some(writer) => {
                list[count] = writer;
                next = row.next;
            }
        }
    }
    let ninth = one_writer(d, next)?;
    match ninth.value {
        None => Some(Read {
            value: Writers { count: 8, list },
            next,
        }),
        Some(_) => None,
    }
}
