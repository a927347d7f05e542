// "Order: 1 over the whole stream; NumEntry; records in order ..; 10" (01, "Refusal numbers"), and the last sweep over the outputs.
ghost use Rattle.std.specs.Prelude.{◌≡◌, ◌*◌, ◌≤◌, length};
ghost use Rattle.table.specs.Rows.{row_words};
ghost use Rattle.stream.specs.Stream.{stream, framed};
ghost use Rattle.stream.specs.Count.{num_entries, stated_by};
ghost use Rattle.records.specs.Read.{reading, output, read_into};
ghost use Rattle.records.specs.Held.{buffers_of, room_in, opening_of, Left};

use crate::pass::read_records;
use crate::{Error, Filled};
use stream::survey_of;
use table::row;
use table::row::{ROW_WORDS, entry_room};

pub const MAX_ENTRIES: usize = row::MAX_ENTRIES as usize;

fn opening_of(words: &[u64]) -> Result<u64, Error>
    ensures { result ≡ opening_of (framed 0 (stream words.now)) (stated_by (num_entries (stream words.now))) }
{
    let survey = survey_of(words);
    survey.frame?;
    survey.stated?.ok_or(Error::NoSingleCount)
}

// "10 | count differs": a stated count is only compared, so that a huge one is 10 in its turn.
fn first_pass(
    words: &[u64],
    rows: &mut [u64],
    refs: &mut [u64],
    names: &mut [u8],
    entries: usize,
) -> Result<Filled, Error>
    requires { entries * row_words ≤ length rows.old }
    ensures { Left (buffers_of rows.old refs.old names.old)
        (reading (room_in entries (buffers_of rows.old refs.old names.old)) words.now)
        result rows.new refs.new names.new }
{
    let stated = opening_of(words)?;
    let filled = read_records(words, rows, refs, names, entries)?;
    let got = filled.entries as u64;
    if stated != got {
        return Err(Error::CountDiffers(stated, got));
    }
    Ok(filled)
}

// The outputs may hold anything; afterwards they hold the table and zeros behind it, or zeros. Of the witness only the length counts.
pub fn read(
    words: &[u64],
    rows: &mut [u64],
    refs: &mut [u64],
    names: &mut [u8],
    witness: usize,
) -> Result<u64, Error>
    ensures { output result rows.new refs.new names.new
        ≡ read_into words.now rows.old refs.old names.old witness }
{
    let entries = MAX_ENTRIES.min(entry_room(rows.len()).min(witness));
    let passed = first_pass(words, rows, refs, names, entries);
    let kept = passed.unwrap_or_default();
    rows[kept.entries * ROW_WORDS..].fill(0);
    refs[kept.refs..].fill(0);
    names[kept.taken..].fill(0);
    passed.map(|filled| filled.entries as u64)
}
