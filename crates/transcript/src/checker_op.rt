// Op 2: the checker on a table with ranks.
use crate::cases::{NAMES, REFERENCES, ROWS, WITNESS, bytes_of, part};
use crate::out::Answer;
use crate::table_op::Lent;
use checker::check::check;

pub(crate) fn checker_case(payload: &[u64], lent: &mut Lent, answer: &mut Answer) -> Option<()> {
    let (head, mut rest) = payload.split_first_chunk::<5>()?;
    let [entries, row_count, ref_count, name_count, rank_count] = *head;
    let rows = part(&mut rest, row_count, ROWS)?;
    let refs = part(&mut rest, ref_count, REFERENCES)?;
    let name_words = part(&mut rest, name_count, NAMES)?;
    let ranks = part(&mut rest, rank_count, WITNESS)?;
    let names = bytes_of(name_words, &mut lent.names)?;
    let passes = check(rows, refs, names, ranks, entries as usize);
    answer.put(passes as u64);
    Some(())
}
