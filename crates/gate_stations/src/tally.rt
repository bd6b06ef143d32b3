// What is printed of a call, and counted of many.
use answer_types::Refusal;
use gate_printing::{InHex, Said, print};
use lookup::Name;
use station_reads::Served;
use std::fmt;
use std::fmt::Display;

// Whether each call is printed; what the answers fold to, and how many of each kind there were.
#[derive(Clone, Copy)]
pub struct Tally {
    pub show: bool,
    pub folded: u32,
    pub done: u64,
    pub above: u64,
    pub full: u64,
    pub served: u64,
    pub none: u64,
}

impl Tally {
    pub fn new(show: bool) -> Tally {
        Tally {
            show,
            folded: 0,
            done: 0,
            above: 0,
            full: 0,
            served: 0,
            none: 0,
        }
    }

    fn fold(&mut self, value: u64) {
        let low = (value % 4294967296) as u32;
        self.folded = self.folded.wrapping_mul(31).wrapping_add(low);
    }

    pub fn entry(mut self, answer: Result<(), Refusal>) -> Tally {
        match answer {
            Ok(()) => count(&mut self.done),
            Err(refusal) if refusal.number == 21 => count(&mut self.above),
            Err(_) => count(&mut self.full),
        }
        self.fold(number_of(answer));
        self
    }

    // What a serving says, and the bytes that it hands back.
    pub fn serving(mut self, said: Option<Served>, part: &[u8]) -> Tally {
        if self.show {
            print_serving(said, part);
        }
        match said {
            None => {
                count(&mut self.none);
                self.fold(100);
            }
            Some(served) => {
                count(&mut self.served);
                self.fold(served.station);
                self.fold(number_of(served.answer));
                self.fold(sum(part));
            }
        }
        self
    }
}

impl Display for Tally {
    fn fmt<W: fmt::Write>(&self, f: &mut fmt::Formatter<W>) -> fmt::Result {
        write!(f, "done {} 21 {} 22 {}", self.done, self.above, self.full)?;
        write!(
            f,
            " served {} none {} fold {}",
            self.served, self.none, self.folded
        )
    }
}

fn count(n: &mut u64) {
    *n = n.wrapping_add(1);
}

fn number_of(answer: Result<(), Refusal>) -> u64 {
    match answer {
        Ok(()) => 0,
        Err(refusal) => refusal.number,
    }
}

fn sum(part: &[u8]) -> u64 {
    part.iter()
        .fold(0, |total, byte| total.wrapping_add(u64::from(*byte)))
}

fn print_serving(said: Option<Served>, part: &[u8]) {
    match said {
        None => print("serve: none\n"),
        Some(served) => {
            let station = served.station;
            print(format_args!("serve: {station} {}", Said(served.answer)));
            print_part(served.answer, part);
        }
    }
}

fn print_part(answer: Result<(), Refusal>, part: &[u8]) {
    match answer {
        Err(_) => print(format_args!("{}\n", InHex(part))),
        Ok(()) if part.is_empty() => print(" empty\n"),
        Ok(()) => print(format_args!(" {}\n", InHex(part))),
    }
}

pub fn print_entry(station: u64, register: Name, chunk: u64, answer: Result<(), Refusal>) {
    let name = match register {
        Name::Metadata => "metadata",
        Name::Content => "content",
    };
    print(format_args!("enter {station} {name} {chunk}: {}\n", Said(answer)));
}
