// What the test programs print on standard output: text, numbers, bytes in hexadecimal, and answers.
#![tactic(auto)]

ghost use Rattle.std.specs.Prelude.{◌<◌};

use answer_types::{Place, Refusal};
use std::fmt;
use std::fmt::{Display, Write};

// Standard output, which `write!` writes: what it does not take is lost. The library's `println!` asks why a write failed, and so would
// assume two more functions of C than docs/TRUST.md has.
#[derive(Clone, Copy)]
struct Output;

impl Write for Output {
    fn write_str(&mut self, s: &str) -> fmt::Result {
        text(s.as_bytes());
        Ok(())
    }
}

// A value, as it is displayed.
pub fn print<D: Display + Drop>(value: D) {
    let _ = write!(Output, "{value}");
}

// Bytes as they are.
pub fn text(t: &[u8]) {
    io::write_all(1, t);
}

pub fn number(n: u64) {
    print(n);
}

// Bytes, displayed in hexadecimal.
#[derive(Clone, Copy)]
pub struct InHex<'a>(pub &'a [u8]);

// The digit of a value below 16.
fn digit(value: u8) -> u8
    requires { value < 16 }
{
    if value < 10 {
        b'0' + value
    } else {
        b'a' - 10 + value
    }
}

// A byte is one write: `{byte:02x}` fills it up to two digits by a write of its own.
impl Display for InHex<'_> {
    fn fmt<W: Write>(&self, f: &mut fmt::Formatter<W>) -> fmt::Result {
        for byte in self.0 {
            let both = [digit(byte / 16), digit(byte % 16)];
            f.write_str(std::str::from_utf8(&both).unwrap_or(""))?;
        }
        Ok(())
    }
}

// The first bytes, where there are so many.
pub fn front(bytes: &[u8], count: usize) -> InHex<'_> {
    InHex(bytes.get(0..count).unwrap_or(&[]))
}

// The bytes in hexadecimal.
pub fn hex(bytes: &[u8]) {
    print(InHex(bytes));
}

// What a call says, to be displayed: a refusal, or an answer that gives nothing but its being done.
#[derive(Clone, Copy)]
pub struct Said<T>(pub T);

// Its number, and its place if it has one.
impl Display for Said<Refusal> {
    fn fmt<W: Write>(&self, f: &mut fmt::Formatter<W>) -> fmt::Result {
        let refusal = self.0;
        write!(f, "refused {}", refusal.number)?;
        match refusal.place {
            Place::Nowhere => Ok(()),
            Place::Tree(i) => write!(f, " tree {}", i.0),
            Place::Bitfield(b) => write!(f, " bitfield {}", b.0),
        }
    }
}

impl Display for Said<Result<(), Refusal>> {
    fn fmt<W: Write>(&self, f: &mut fmt::Formatter<W>) -> fmt::Result {
        match self.0 {
            Ok(()) => f.write_str("done"),
            Err(r) => Said(r).fmt(f),
        }
    }
}
