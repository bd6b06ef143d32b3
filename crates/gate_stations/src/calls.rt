// The calls that a plan asks for, one after the other.
use super::plan::State;
use super::rows::Step;
use super::tally::Tally;
use gate_samples::Told;
use lookup::Name;
use number_types::ChunkNumber;
use station_reads::{enter, serve, serve_answer};

// Calls until the plan stops. There are fewer than 60,000.
pub fn all(
    table: &mut [u64; 161],
    mt: &[u8],
    ms: &[u8],
    mb: &[u8],
    md: &[u8],
    ct: &[u8],
    cs: &[u8],
    cb: &[u8],
    cd: &[u8],
    c: Told,
    start: State,
) -> State {
    let mut state = start;
    for _ in 0..60000 {
        let step = state.next();
        if let Step::Stop = step {
            break;
        }
        let t = called(table, mt, ms, mb, md, ct, cs, cb, cd, c, step, state.tally);
        state = state.after(t);
    }
    state
}

fn called(
    table: &mut [u64; 161],
    mt: &[u8],
    ms: &[u8],
    mb: &[u8],
    md: &[u8],
    ct: &[u8],
    cs: &[u8],
    cb: &[u8],
    cd: &[u8],
    c: Told,
    next: Step,
    t: Tally,
) -> Tally {
    match next {
        Step::Enter(station, register, chunk) => entered(table, station, register, chunk, t),
        Step::Serve | Step::Empty => served(table, mt, ms, mb, md, 7, ct, cs, cb, cd, c, t),
        Step::Wrong => served(table, mt, ms, mb, md, 5, ct, cs, cb, cd, c, t),
        _ => super::tables::made(table, next, t),
    }
}

pub fn entered(
    table: &mut [u64; 161],
    station: u64,
    register: Name,
    chunk: u64,
    t: Tally,
) -> Tally {
    let answer = enter(table, station, register, ChunkNumber(chunk));
    if t.show {
        super::tally::print_entry(station, register, chunk, answer);
    }
    t.entry(answer)
}

// A serving, with the call beside it made before. Of the metadata register seven chunks are told, and s as it is or as no call could use it.
fn served(
    table: &mut [u64; 161],
    mt: &[u8],
    ms: &[u8],
    mb: &[u8],
    md: &[u8],
    s: u64,
    ct: &[u8],
    cs: &[u8],
    cb: &[u8],
    cd: &[u8],
    c: Told,
    t: Tally,
) -> Tally {
    let Told { n, s: signed, size } = c;
    let said = serve_answer(
        table, mt, ms, mb, md, 7, s, 9, ct, cs, cb, cd, n, signed, size,
    );
    let part = serve(
        table, mt, ms, mb, md, 7, s, 9, ct, cs, cb, cd, n, signed, size,
    );
    t.serving(said, part)
}
