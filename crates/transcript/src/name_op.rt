// Op 3: the name of an entry.
use crate::cases::{NAMES, ROWS, bytes_of, part};
use crate::out::Answer;
use crate::table_op::Lent;
use table::TypeRef;

// Whether there is a name, its length and its bytes; where there is none the name has no bytes.
pub(crate) fn name_case(payload: &[u64], lent: &mut Lent, answer: &mut Answer) -> Option<()> {
    let (head, mut rest) = payload.split_first_chunk::<3>()?;
    let [entry, row_count, name_count] = *head;
    let rows = part(&mut rest, row_count, ROWS)?;
    let names = bytes_of(part(&mut rest, name_count, NAMES)?, &mut lent.names)?;
    let is_named = lookup::has_name(rows, names, TypeRef(entry));
    let name = lookup::name(rows, names, TypeRef(entry));
    answer.put(is_named as u64);
    answer.put(name.len() as u64);
    answer.put_all(name);
    Some(())
}
