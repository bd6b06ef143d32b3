// Sixteen workstations, one archive: reads that wait in a table, and are served in turn from the two registers. What belongs to the metadata
// register begins with m, to the content register with c. The registers are lent at the serving, not at the entering.
#![tactic(auto)]

ghost use Rattle.std.specs.Prelude.{◌≡◌};
ghost use Rattle.blake2b.specs.Hash.{node_hash};
ghost use Rattle.checks.specs.Lent.{register_of};
ghost use Rattle.lookup.specs.Meaning.{name_of};
ghost use Rattle.station_queue.specs.Table.{next};
ghost use Rattle.station_queue.specs.Words.{table_of};
ghost use Rattle.station_queue.specs.Post.{Entered};
ghost use Rattle.station_reads.specs.Serving.{number_of, named_by, serving, Serves};
ghost use Rattle.station_reads.specs.Meaning.{served_of};

use answer_types::Refusal;
use lookup::Name;
use number_types::ChunkNumber;
pub use station_queue::fresh;

// A station that is served, and what its read is answered.
#[derive(Clone, Copy)]
pub struct Served {
    pub station: u64,
    pub answer: Result<(), Refusal>,
}

// The number under which a table keeps the name of a register. `From` for this and for the way back could stand only in the crate of `Name`, which knows of
// no table.
pub fn number_of(name: Name) -> u64
    ensures { result ≡ number_of (name_of name) }
{
    match name {
        Name::Metadata => 0,
        Name::Content => 1,
    }
}

// The register that a number of a table names.
pub fn named_by(number: u64) -> Name
    ensures { name_of result ≡ named_by number }
{
    if number == 0 {
        Name::Metadata
    } else {
        Name::Content
    }
}

// A read that waits from now on behind those of its station. Only the station and the number of its reads are judged.
pub fn enter(
    table: &mut [u64; 161],
    station: u64,
    name: Name,
    chunk: ChunkNumber,
) -> Result<(), Refusal>
    ensures { Entered station (record { register = number_of (name_of name); chunk = chunk.0 }) table.old result table.new }
{
    station_queue::enter(table, station, number_of(name), chunk)
}

// Beside a serving, and made before it: whom it serves, and what the read is answered; none where no read waits.
pub fn serve_answer(
    table: &[u64; 161],
    mtree: &[u8],
    msignatures: &[u8],
    mbitfield: &[u8],
    mdata: &[u8],
    mn: u64,
    ms: u64,
    msize: u64,
    ctree: &[u8],
    csignatures: &[u8],
    cbitfield: &[u8],
    cdata: &[u8],
    cn: u64,
    cs: u64,
    csize: u64,
) -> Option<Served>
    ensures { served_of result ≡
        serving node_hash (next (table_of table.now))
        (register_of mtree.now msignatures.now mbitfield.now mdata.now mn ms msize)
        (register_of ctree.now csignatures.now cbitfield.now cdata.now cn cs csize) }
{
    let turn = station_queue::next(table)?;
    let name = named_by(turn.register);
    let answer = lookup::read_answer(
        name,
        mtree,
        msignatures,
        mbitfield,
        mdata,
        mn,
        ms,
        msize,
        ctree,
        csignatures,
        cbitfield,
        cdata,
        cn,
        cs,
        csize,
        turn.chunk,
    );
    Some(Served {
        station: turn.station,
        answer,
    })
}

// A serving: the bytes of the read whose turn it is, in the data of the register that it names; nothing where it is refused or no read
// waits. The read leaves the table either way.
pub fn serve<'a>(
    table: &mut [u64; 161],
    mtree: &[u8],
    msignatures: &[u8],
    mbitfield: &[u8],
    mdata: &'a [u8],
    mn: u64,
    ms: u64,
    msize: u64,
    ctree: &[u8],
    csignatures: &[u8],
    cbitfield: &[u8],
    cdata: &'a [u8],
    cn: u64,
    cs: u64,
    csize: u64,
) -> &'a [u8]
    ensures { Serves node_hash
        (register_of mtree.now msignatures.now mbitfield.now mdata.now mn ms msize)
        (register_of ctree.now csignatures.now cbitfield.now cdata.now cn cs csize)
        table.old table.new result.now }
{
    let turn = station_queue::next(table);
    station_queue::leave(table);
    match turn {
        None => &cdata[0..0],
        Some(turn) => {
            let name = named_by(turn.register);
            lookup::read(
                name,
                mtree,
                msignatures,
                mbitfield,
                mdata,
                mn,
                ms,
                msize,
                ctree,
                csignatures,
                cbitfield,
                cdata,
                cn,
                cs,
                csize,
                turn.chunk,
            )
        }
    }
}
