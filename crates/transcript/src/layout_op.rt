// Op 4: a layout string to the answer and the layout.
use crate::cases::{LAYOUT_BYTES, bytes_of, part};
use crate::out::Answer;
use crate::table_op::Lent;
use flat::put::LAYOUT_WORDS;
use flat::read::read_layout;
use units::refusal::Refusal;

// "number, place, detail (0, 0, 0: accepted), then the layout"
pub(crate) fn layout_case(payload: &[u64], lent: &mut Lent, answer: &mut Answer) -> Option<()> {
    let (count, mut rest) = payload.split_first()?;
    let string = bytes_of(part(&mut rest, *count, LAYOUT_BYTES)?, &mut lent.names)?;
    let mut words = [0u64; LAYOUT_WORDS];
    let laid = read_layout(string, &mut words);
    let layout = words.get(..laid.words)?;
    answer.put_read(laid.answer.map(|()| 0).map_err(Refusal::from));
    answer.put_all(layout);
    Some(())
}
