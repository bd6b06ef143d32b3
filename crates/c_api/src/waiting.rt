// Reads of sixteen stations that wait for their turn, in a table of 161 numbers that the caller lends. Of a serving's registers, what
// belongs to the metadata register begins with m, to the content register with c.
ghost use Rattle.std.specs.Prelude.{◌≡◌};
ghost use Rattle.answer_types.specs.Verdict.{done};
ghost use Rattle.blake2b.specs.Hash.{node_hash};
ghost use Rattle.checks.specs.Lent.{register_of};
ghost use Rattle.lookup.specs.Read.{named, read_found};
ghost use Rattle.lookup.specs.Meaning.{name_of};
ghost use Rattle.station_queue.specs.Post.{Begun};
ghost use Rattle.station_reads.specs.Serving.{number_of, named_by};
ghost use Rattle.c_encoding.specs.Encoding.{encoded, Gives, as_part};
ghost use Rattle.c_api.specs.Waiting.{Enters, Hands};

use answer_types::Refusal;
use lookup::Name;
use number_types::ChunkNumber;

// A table for which nobody waits, as if station 15 had been served.
#[unsafe(no_mangle)]
pub extern "C" fn sleep_flat_fresh(table: &mut [u64; 161], answer: &mut [u64; 3])
    ensures answers { answer.new ≡ encoded done }
    ensures begins { Begun table.new }
{
    let begun = station_queue::fresh();
    *table = begun;
    *answer = c_encoding::encode(Ok(()));
}

// A read that waits from now on behind those of its station. The name 0 is the metadata register's, any other number the content register's.
#[unsafe(no_mangle)]
pub extern "C" fn sleep_flat_enter(
    table: &mut [u64; 161],
    station: u64,
    name: u64,
    chunk: u64,
    answer: &mut [u64; 3],
)
    ensures { Enters station (record { register = number_of (named_by name); chunk = chunk }) table.old answer.new table.new }
{
    let named = station_reads::named_by(name);
    *answer = c_encoding::encode(station_reads::enter(table, station, named, ChunkNumber(chunk)));
}

// A verified read of the register that is named.
fn read_named(
    name: Name,
    mtree: &[u8],
    msignatures: &[u8],
    mbitfield: &[u8],
    mdata: &[u8],
    mn: u64,
    ms: u64,
    msize: u64,
    ctree: &[u8],
    csignatures: &[u8],
    cbitfield: &[u8],
    cdata: &[u8],
    cn: u64,
    cs: u64,
    csize: u64,
    chunk: u64,
    out: &mut [u64; 2],
    answer: &mut [u64; 3],
)
    ensures { Gives
        (as_part (read_found node_hash
        (named (name_of name)
        (register_of mtree.now msignatures.now mbitfield.now mdata.now mn ms msize)
        (register_of ctree.now csignatures.now cbitfield.now cdata.now cn cs csize))
        chunk))
        out.old answer.new out.new }
{
    match name {
        Name::Metadata => super::lookups::sleep_flat_read(
            mtree,
            msignatures,
            mbitfield,
            mdata,
            mn,
            ms,
            msize,
            chunk,
            out,
            answer,
        ),
        Name::Content => super::lookups::sleep_flat_read(
            ctree,
            csignatures,
            cbitfield,
            cdata,
            cn,
            cs,
            csize,
            chunk,
            out,
            answer,
        ),
    }
}

// A serving. Where no read waits the seven numbers of `answer` are 0; else they are 1, the station whose turn it is, the name of the register that
// is read (0 metadata, 1 content), the chunk number, and the three of what the read is answered. In `out` is its part of the data of the register that
// it names. The read leaves the table, also where it is refused; `out` is as it was then, and where no read waits.
#[unsafe(no_mangle)]
pub extern "C" fn sleep_flat_serve(
    table: &mut [u64; 161],
    mtree: &[u8],
    msignatures: &[u8],
    mbitfield: &[u8],
    mdata: &[u8],
    mn: u64,
    ms: u64,
    msize: u64,
    ctree: &[u8],
    csignatures: &[u8],
    cbitfield: &[u8],
    cdata: &[u8],
    cn: u64,
    cs: u64,
    csize: u64,
    out: &mut [u64; 2],
    answer: &mut [u64; 7],
)
    ensures { Hands
        (register_of mtree.now msignatures.now mbitfield.now mdata.now mn ms msize)
        (register_of ctree.now csignatures.now cbitfield.now cdata.now cn cs csize)
        table.old out.old answer.new table.new out.new }
{
    let turn = station_queue::next(table);
    station_queue::leave(table);
    match turn {
        None => {
            *answer = [0, 0, 0, 0, 0, 0, 0];
        }
        Some(turn) => {
            let name = station_reads::named_by(turn.register);
            let number = turn.chunk.0;
            let mut told = [0, 0, 0];
            read_named(
                name,
                mtree,
                msignatures,
                mbitfield,
                mdata,
                mn,
                ms,
                msize,
                ctree,
                csignatures,
                cbitfield,
                cdata,
                cn,
                cs,
                csize,
                number,
                out,
                &mut told,
            );
            let named = station_reads::number_of(name);
            *answer = [1, turn.station, named, number, told[0], told[1], told[2]];
        }
    }
}
