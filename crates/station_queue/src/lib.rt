// Sixteen workstations that wait for one archive: the table of waiting reads. It is 161 numbers that the caller lends; every content of it is
// read as a table, as specs/Words says.
#![tactic(auto)]

mod words;

ghost use Rattle.std.specs.Prelude.{◌≡◌};
ghost use Rattle.station_queue.specs.Table.{next as Table·next};
ghost use Rattle.station_queue.specs.Words.{table_of};
ghost use Rattle.station_queue.specs.Post.{turn_of, Begun, Entered, Left};

use answer_types::Refusal;
use number_types::ChunkNumber;

// Whose turn it is: a station, with the register and the chunk of its read that came first.
#[derive(Clone, Copy)]
pub struct Turn {
    pub station: u64,
    pub register: u64,
    pub chunk: ChunkNumber,
}

// A table for which nobody waits, as if station 15 had been served.
pub fn fresh() -> [u64; 161]
    ensures { Begun result }
{
    let mut table = [0u64; 161];
    table[160] = 15;
    table
}

// A read that waits from now on behind those of its station. Only the station and the number of its reads are judged.
pub fn enter(
    table: &mut [u64; 161],
    station: u64,
    register: u64,
    chunk: ChunkNumber,
) -> Result<(), Refusal>
    ensures { Entered station (record { register = register; chunk = chunk.0 }) table.old result table.new }
{
    words::enter(table, station, register, chunk.0)
}

// Whose turn it is: the next station in rising number, going round after the one last served, that has a read waiting; none where nobody waits.
pub fn next(table: &[u64; 161]) -> Option<Turn>
    ensures { turn_of result ≡ Table·next (table_of table.now) }
{
    words::next(table)
}

// The read whose turn it is leaves the table; where nobody waits the table stays as it is.
pub fn leave(table: &mut [u64; 161])
    ensures { Left table.old table.new }
{
    words::leave(table)
}
