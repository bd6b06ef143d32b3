// Records written and read and paths found, as the script on standard input asks for, which the model wrote (tests/model/records.py). Prints what
// the calls answer, for comparison with the text in stdout. A step of the script is a letter, a length of two bytes, and so many bytes: a text to
// print, or what a call is given. Numbers in it have 8 bytes, the highest first.
#![tactic(auto)]

mod finding;
mod given;
mod judging;
mod making;
mod show;

use finding::Asked;
use given::Told;
use judging::Judging;

// What a step asks for, by its letter.
#[derive(Clone, Copy)]
enum Kind {
    Start,
    Append,
    Turn,
    Ask(Asked),
    Judge(Judging),
}

// A letter of no step.
#[derive(Clone, Copy)]
struct NoKind;

impl TryFrom<u8> for Kind {
    type Error = NoKind;

    fn try_from(letter: u8) -> Result<Kind, NoKind> {
        match letter {
            b'S' => Ok(Kind::Start),
            b'A' => Ok(Kind::Append),
            b'X' => Ok(Kind::Turn),
            b'F' => Ok(Kind::Ask(Asked::Path)),
            b'R' => Ok(Kind::Ask(Asked::Record)),
            b'T' => Ok(Kind::Judge(Judging::Text)),
            b'W' => Ok(Kind::Judge(Judging::WriteNode)),
            b'w' => Ok(Kind::Judge(Judging::WriteHeader)),
            b'N' => Ok(Kind::Judge(Judging::ReadNode)),
            b'H' => Ok(Kind::Judge(Judging::ReadHeader)),
            b'B' => Ok(Kind::Judge(Judging::Beginnings)),
            b'V' => Ok(Kind::Judge(Judging::Spoilt)),
            _ => Err(NoKind),
        }
    }
}

// The letter of a step, and how many bytes follow.
#[derive(Clone, Copy)]
struct Head {
    letter: u8,
    len: usize,
}

fn main() {
    let mut tree = [0u8; 600];
    let mut signatures = [0u8; 500];
    let mut bitfield = [0u8; 3360];
    let mut data = [0u8; 4096];
    let mut space = [0u8; 4096];
    all(
        &mut tree,
        &mut signatures,
        &mut bitfield,
        &mut data,
        &mut space,
    );
}

// One step after the other, of which there are fewer than 10,000. A step that is longer than the space for it is left unread.
fn all(
    tree: &mut [u8],
    signatures: &mut [u8],
    bitfield: &mut [u8],
    data: &mut [u8],
    space: &mut [u8],
) {
    let mut told = Told::default();
    for _ in 0..10000 {
        let Some(head) = heading() else {
            return;
        };
        if let Some(step) = space.get_mut(0..head.len) {
            io::read_full(0, step);
            if let Ok(kind) = Kind::try_from(head.letter) {
                told = taken(tree, signatures, bitfield, data, step, told, kind);
            }
        }
    }
}

// Behind the last step there is none.
fn heading() -> Option<Head> {
    let mut bytes = [0u8; 3];
    if io::read_full(0, &mut bytes) < 3 {
        return None;
    }
    let [letter, high, low] = bytes;
    Some(Head {
        letter,
        len: usize::from(u16::from_be_bytes([high, low])),
    })
}

fn taken(
    tree: &mut [u8],
    signatures: &mut [u8],
    bitfield: &mut [u8],
    data: &mut [u8],
    step: &[u8],
    told: Told,
    kind: Kind,
) -> Told {
    match kind {
        Kind::Start => making::started(tree, signatures, bitfield, data),
        Kind::Append => making::appended(tree, signatures, bitfield, data, told, step),
        Kind::Turn => making::turned(tree, signatures, bitfield, data, told, step),
        Kind::Ask(asked) => {
            finding::ask(tree, signatures, bitfield, data, step, asked);
            told
        }
        Kind::Judge(judging) => {
            judging::taken(step, judging);
            told
        }
    }
}
