// The calls on the numbers of a table. Each function here asks that they are 161, which the fronts' arrays are.
ghost use Rattle.std.specs.Prelude.{◌≡◌, ◌<◌, ◌≤◌, length, Some};
ghost use Rattle.station_queue.specs.Table.{next as Table·next, turn};
ghost use Rattle.station_queue.specs.Words.{table_words, count_at, first_at, read_at, dropped_at, table_of};
ghost use Rattle.station_queue.specs.Post.{turn_of, Entered, Left};

use super::Turn;
use answer_types::Refusal;
use number_types::ChunkNumber;

// Inner: how many reads wait for a station.
#[tactic(auto, using(crate::proofs::Numbers::count_min))]
fn count(table: &[u64], s: usize) -> u64
    requires { (length table.now ≡ table_words) × (s < 16) }
    ensures { (result ≡ count_at table.now s) × (result ≤ 4) }
{
    table[s].min(4)
}

// Inner: at which of its places a station's first read stands.
#[tactic(auto, unfolding(crate::specs::Words::first_at))]
fn first(table: &[u64], s: usize) -> u64
    requires { (length table.now ≡ table_words) × (s < 16) }
    ensures { (result ≡ first_at table.now s) × (result < 4) }
{
    table[16 + s] % 4
}

// Inner: a read that waits from now on behind those of its station.
pub fn enter(table: &mut [u64], station: u64, register: u64, chunk: u64) -> Result<(), Refusal>
    requires { length table.old ≡ table_words }
    ensures { Entered station (record { register = register; chunk = chunk }) table.old result table.new }
{
    if 15 < station {
        return answer_types::refuse(21);
    }
    let s = station as usize;
    let waiting = count(table, s);
    if 4 <= waiting {
        return answer_types::refuse(22);
    }
    let place = (first(table, s) + waiting) % 4;
    let at = 4 * s + place as usize;
    table[32 + at] = register;
    table[96 + at] = chunk;
    table[s] = waiting + 1;
    Ok(())
}

// Inner: the turn of a station, with its first read.
#[tactic(auto, using(crate::proofs::Numbers::first_read))]
fn turn_of(table: &[u64], s: usize) -> Turn
    requires { (length table.now ≡ table_words) × (s < 16) }
    ensures { turn_of (Some result) ≡ turn s (read_at table.now s (first_at table.now s)) }
{
    let place = first(table, s) as usize;
    let at = 4 * s + place;
    Turn {
        station: s as u64,
        register: table[32 + at],
        chunk: ChunkNumber(table[96 + at]),
    }
}

// Inner: whose turn it is.
#[tactic(auto, using(crate::proofs::Calls::pass_one, crate::proofs::Calls::meet_one, crate::proofs::Calls::none_met))]
pub fn next(table: &[u64]) -> Option<Turn>
    requires { length table.now ≡ table_words }
    ensures { turn_of result ≡ Table·next (table_of table.now) }
{
    let last = (table[160] % 16) as usize;
    for k in 0..16 {
        let s = (last + 1 + k) % 16;
        if 0 < count(table, s) {
            return Some(turn_of(table, s));
        }
    }
    None
}

// Inner: the first read of a station that has one leaves the table, and the station is the one last served.
#[tactic(auto, using(crate::proofs::Calls::dropped_is))]
fn drop_first(table: &mut [u64], s: usize)
    requires { (length table.old ≡ table_words) × ((s < 16) × (0 < count_at table.old s)) }
    ensures { table.new ≡ dropped_at table.old s }
{
    let waiting = count(table, s);
    let place = (first(table, s) + 1) % 4;
    table[16 + s] = place;
    table[s] = waiting - 1;
    table[160] = s as u64;
}

// Inner: the read whose turn it is leaves the table.
pub fn leave(table: &mut [u64])
    requires { length table.old ≡ table_words }
    ensures { Left table.old table.new }
{
    if let Some(turn) = next(table) {
        drop_first(table, turn.station as usize);
    }
}
