// Long runs of entering and serving by random numbers.
ghost use Rattle.std.specs.Prelude.{◌<◌};

use super::rows::Step;
use super::tally::Tally;
use gate_printing::print;
use station_reads::named_by;

// Whether the calls of a run are printed; its seed, how many steps it has, of 8 how many enter a read on average, and which station floods
// the table, if one does: it enters every other read.
#[derive(Clone, Copy)]
pub struct Run {
    pub show: bool,
    pub seed: u32,
    pub steps: u64,
    pub entering: u32,
    pub flooding: Option<u32>,
}

// Two short runs, of which each call is printed, and long ones. Any other row is one of a story.
pub fn run_of(row: u64) -> Option<Run> {
    match row {
        152 => Some(Run::new(true, 1, 300, 4, None)),
        153 => Some(Run::new(true, 2, 300, 6, Some(3))),
        154..=177 => Some(long((row - 154) as u32)),
        _ => None,
    }
}

impl Run {
    fn new(show: bool, seed: u32, steps: u64, entering: u32, flooding: Option<u32>) -> Run {
        Run {
            show,
            seed,
            steps,
            entering,
            flooding,
        }
    }
}

fn long(k: u32) -> Run
    requires { k < 24 }
{
    let first = k / 8;
    let entering = share(k / 2 % 4);
    if k % 2 == 0 {
        Run::new(false, 100 + first, 2000, entering, None)
    } else {
        Run::new(false, 200 + first, 2000, entering, Some(5 * first + 3))
    }
}

fn share(k: u32) -> u32 {
    match k {
        0 => 3,
        1 => 4,
        2 => 5,
        _ => 7,
    }
}

// x becomes 1664525 x + 1013904223 modulo 2^32, and its higher 16 bits are used.
fn turned(x: u32) -> u32 {
    x.wrapping_mul(1664525).wrapping_add(1013904223)
}

// The next step of a run, and x after the numbers that were drawn for it.
pub fn drawn(run: Run, x: u32) -> (Step, u32) {
    let first = turned(x);
    if run.entering <= first / 65536 % 8 {
        return (Step::Serve, first);
    }
    let second = turned(first);
    let third = turned(second);
    let fourth = turned(third);
    let (station, last) = flooded(run, second / 65536 % 18, fourth);
    let register = named_by(u64::from(third / 65536 % 2));
    let chunk = u64::from(fourth / 65536 % 15);
    (Step::Enter(u64::from(station), register, chunk), last)
}

// The station that enters, which a flooded run picks by one more number, and the random number behind it.
fn flooded(run: Run, station: u32, x: u32) -> (u32, u32) {
    let Some(flooding) = run.flooding else {
        return (station, x);
    };
    let last = turned(x);
    if last / 65536 % 2 == 1 {
        (flooding, last)
    } else {
        (station, last)
    }
}

pub fn print_run(run: Run, t: Tally) {
    let Run {
        seed,
        steps,
        entering,
        ..
    } = run;
    print(format_args!("run seed={seed} steps={steps} entering={entering} flooding="));
    match run.flooding {
        None => print("none"),
        Some(station) => print(station),
    }
    print(format_args!(": {t}\n"));
}
