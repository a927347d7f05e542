// The whole reader over the caller's words and four lent buffers.
ghost use Rattle.std.specs.Prelude.{length};
ghost use Rattle.ferry.specs.Reader.{Reads, Second, lent_by};

use crate::Answer;
use units::refusal::Refusal;
use walk::walk::resolve;

// Kept: the four outputs are lent one by one, as C lends them; a caller that lends them in a struct is not proved (as in records).
// The second pass over what the first left; a refusal of it takes back what the first wrote.
fn second(
    rows: &mut [u64],
    refs: &mut [u64],
    names: &mut [u8],
    witness: &mut [u64],
    entries: u64,
) -> Answer
    ensures { Second rows.old refs.old names.old (length witness.old) entries
        result rows.new refs.new names.new witness.new }
{
    match resolve(rows, refs, entries as usize, witness) {
        Ok(()) => Ok(entries),
        Err(error) => {
            rows.fill(0);
            refs.fill(0);
            names.fill(0);
            Err(Refusal::from(error))
        }
    }
}

// "Order: 1 over the whole stream; NumEntry; records in order ..; 10; resolution" (01, "Refusal numbers").
pub fn read_table(
    words: &[u64],
    rows: &mut [u64],
    refs: &mut [u64],
    names: &mut [u8],
    witness: &mut [u64],
) -> Answer
    ensures { Reads words.now
        (lent_by rows.old refs.old names.old witness.old)
        result rows.new refs.new names.new witness.new }
{
    match records::read::read(words, rows, refs, names, witness.len()) {
        Ok(entries) => second(rows, refs, names, witness, entries),
        Err(error) => {
            witness.fill(0);
            Err(Refusal::from(error))
        }
    }
}
