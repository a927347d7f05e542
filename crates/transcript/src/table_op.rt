// Op 1: a stream to the answer and the four outputs, each filled before.
use crate::cases::{NAMES, REFERENCES, ROWS, WITNESS};
use crate::out::Answer;
use ferry::read::read_table;

// "every lent output of op 1 is filled with the word 0xA5A5A5A5A5A5A5A5 (names: the byte 0xA5)"
const FILL_WORD: u64 = 0xA5A5_A5A5_A5A5_A5A5;

const FILL_BYTE: u8 = 0xA5;

// The outputs that the reader is lent; in the room of the names the other ops have their bytes.
#[derive(Drop)]
pub(crate) struct Lent {
    pub(crate) rows: [u64; ROWS],
    pub(crate) refs: [u64; REFERENCES],
    pub(crate) names: [u8; NAMES],
    pub(crate) witness: [u64; WITNESS],
}

// "then rows, references, names, witness, each whole, in the lengths lent"
pub(crate) fn table_case(payload: &[u64], lent: &mut Lent, answer: &mut Answer) -> Option<()> {
    let (head, stream) = payload.split_first_chunk::<4>()?;
    let [row_count, ref_count, name_count, witness_count] = *head;
    let rows = lent.rows.get_mut(..row_count as usize)?;
    let refs = lent.refs.get_mut(..ref_count as usize)?;
    let names = lent.names.get_mut(..name_count as usize)?;
    let witness = lent.witness.get_mut(..witness_count as usize)?;
    rows.fill(FILL_WORD);
    refs.fill(FILL_WORD);
    names.fill(FILL_BYTE);
    witness.fill(FILL_WORD);
    answer.put_read(read_table(stream, rows, refs, names, witness));
    answer.put_all(rows);
    answer.put_all(refs);
    answer.put_all(names);
    answer.put_all(witness);
    Some(())
}
