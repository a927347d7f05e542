// The records in order: what each says by value, then at most one writer.
ghost use Rattle.std.specs.Prelude.{◌≡◌, ◌+◌, ◌*◌, ◌≤◌, length};
ghost use Rattle.table.specs.Rows.{row_words};
ghost use Rattle.stream.specs.Stream.{stream};
ghost use Rattle.records.specs.Table.{Table, empty};
ghost use Rattle.records.specs.Records.{step_of, run};
ghost use Rattle.records.specs.Values.{filled_of};
ghost use Rattle.records.specs.Held.{Buffers, buffers_of, room_in, Holds, After, Passed, mark_of, Ready};

use crate::fill::deed_on;
use crate::write::{put, stage};
use crate::{Deed, Error, Filled};
use shapes::Fault;
use shapes::record::shape_in;
use stream::{Record, Records};

// Kept: three outputs as three parameters, here and in each caller above; of one that lends them in a struct the goal
// `returns-clause-rows` does not close.
fn take_record(
    r: Record<'_>,
    rows: &mut [u64],
    refs: &mut [u64],
    names: &mut [u8],
    f: Filled,
    entries: usize,
) -> Result<Filled, Fault>
    requires { Ready entries f (length rows.old) (length refs.old) (length r.fields.now) }
    ensures after { (b : Buffers) (t : Table)
        → Holds b t rows.old refs.old names.old → f ≡ filled_of t
        → After b (step_of (room_in entries b) t r.entry.code r.entry.fields.now) result rows.new refs.new names.new }
    ensures mark { mark_of result ≤ f.mark + length r.entry.fields.now }
{
    let Record { code, fields } = r;
    let shape = shape_in(code, fields, f.taken < f.mark)?;
    match deed_on(shape, f)? {
        Deed::Pass => Ok(f),
        Deed::Pend => {
            stage(names, fields, f.mark);
            Ok(Filled {
                mark: f.mark + fields.len(),
                ..f
            })
        }
        Deed::Put(p) => put(fields, rows, refs, names.len(), p, f, entries),
    }
}

pub(crate) fn read_records(
    words: &[u64],
    rows: &mut [u64],
    refs: &mut [u64],
    names: &mut [u8],
    entries: usize,
) -> Result<Filled, Error>
    requires { entries * row_words ≤ length rows.old }
    ensures { Passed (buffers_of rows.old refs.old names.old)
        (run (room_in entries (buffers_of rows.old refs.old names.old)) 0 empty
        (stream words.now))
        result rows.new refs.new names.new }
{
    let mut f = Filled::default();
    for (number, record) in Records::new(words).enumerate() {
        let Ok(record) = record else {
            break;
        };
        f = take_record(record, rows, refs, names, f, entries).map_err(|fault| Error::BadRecord(
            number as u64,
            fault,
        ))?;
    }
    Ok(f)
}
