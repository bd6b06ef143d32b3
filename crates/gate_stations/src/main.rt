// Reads of sixteen stations, entered and served from two registers: short stories and long random runs, a station that floods the table
// among them. Prints what the calls answer, for comparison with the text in stdout. What belongs to the metadata register begins with m, to
// the content register with c; t, s, b and d are its tree, signatures, bitfield and data.
#![tactic(auto)]

mod calls;
mod plan;
mod rows;
mod runs;
mod tables;
mod tally;

ghost use Rattle.std.specs.Prelude.{◌<◌, ◌≤◌};

use gate_samples::Told;
use plan::State;

// Seven chunks for the metadata register and thirteen for the content register, of which two can't be read; then all that is tried. A serving
// reads the registers as they are when it is made, and the one that is named alone: after a chunk is appended and a byte of chunk 4 changed,
// and after the header of the bitfield is.
fn main() {
    let mut mt = [0xaau8; 552];
    let mut ms = [0xbbu8; 480];
    let mut mb = [0xccu8; 3360];
    let mut md = [0xddu8; 9];
    let mut ct = [0xaau8; 1112];
    let mut cs = [0xbbu8; 928];
    let mut cb = [0xccu8; 3360];
    let mut cd = [0xddu8; 26];
    begun(&mut mt, &mut ms, &mut mb, &mut md, 7, 4);
    let c = damaged(&mut ct, &mut cs, &mut cb, &mut cd);
    let mut table = station_queue::fresh();
    let first = State::start();
    let stop = calls::all(&mut table, &mt, &ms, &mb, &md, &ct, &cs, &cb, &cd, c, first);
    let more = grown(&mut ct, &mut cs, &mut cb, &mut cd, c);
    let second = stop.resumed();
    let stop = calls::all(
        &mut table, &mt, &ms, &mb, &md, &ct, &cs, &cb, &cd, more, second,
    );
    flip(&mut cb, 31);
    let third = stop.resumed();
    calls::all(
        &mut table, &mt, &ms, &mb, &md, &ct, &cs, &cb, &cd, more, third,
    );
}

// So many chunks, on buffers that held other bytes before.
fn begun(t: &mut [u8], s: &mut [u8], b: &mut [u8], d: &mut [u8], count: u64, span: u64) -> Told
    requires { (0 < span) × (span ≤ 64) × (count ≤ 1048576) }
{
    let _ = writing::start(t, s, b, d);
    gate_samples::grow(t, s, b, d, Told::default(), count, span)
}

// The leaf hash of chunk 3 and the first byte of chunk 8 changed.
fn damaged(t: &mut [u8], s: &mut [u8], b: &mut [u8], d: &mut [u8]) -> Told {
    let c = begun(t, s, b, d, 13, 5);
    flip(t, 272);
    flip(d, 13);
    c
}

fn grown(t: &mut [u8], s: &mut [u8], b: &mut [u8], d: &mut [u8], c: Told) -> Told {
    let more = gate_samples::grow(t, s, b, d, c, 14, 5);
    flip(d, 6);
    more
}

// One byte changed, if it is there.
fn flip(xs: &mut [u8], at: usize) {
    if let Some(byte) = xs.get_mut(at) {
        *byte ^= 1;
    }
}
