// Which op asks what. Each function of an op puts the answer's body; None, and no body, "where a case can't be carried out as asked (an
// unknown op, a payload shorter than its own counts say, a value above 255 where a byte stands, a buffer above the limits ..)".
use crate::checker_op::checker_case;
use crate::layout_op::layout_case;
use crate::name_op::name_case;
use crate::out::Answer;
use crate::table_op::{Lent, table_case};

// "lent buffers of 36,864 words for rows .., 16,384 for references, 16,384 name bytes, 4,096 witness or rank words; layout strings of
// 4,096 bytes".
pub(crate) const ROWS: usize = 36_864;

pub(crate) const REFERENCES: usize = 16_384;

pub(crate) const NAMES: usize = 16_384;

pub(crate) const WITNESS: usize = 4_096;

pub(crate) const LAYOUT_BYTES: usize = 4_096;

#[derive(Clone, Copy, Debug, PartialEq, Eq)]
enum Op {
    Table,
    Checker,
    Name,
    Layout,
}

#[derive(Clone, Copy, Debug, PartialEq, Eq)]
struct UnknownOp;

impl TryFrom<u64> for Op {
    type Error = UnknownOp;

    fn try_from(op: u64) -> Result<Op, UnknownOp> {
        match op {
            1 => Ok(Op::Table),
            2 => Ok(Op::Checker),
            3 => Ok(Op::Name),
            4 => Ok(Op::Layout),
            _ => Err(UnknownOp),
        }
    }
}

// The next words of a payload, so many, up to a limit.
pub(crate) fn part<'a>(rest: &mut &'a [u64], count: u64, limit: usize) -> Option<&'a [u64]> {
    if (limit as u64) < count {
        return None;
    }
    rest.split_off(..count as usize)
}

// The bytes that the words are, in a lent room.
// Kept: a string in place of so many bytes would be cleared and copied for each case, however short what it holds.
pub(crate) fn bytes_of<'a>(words: &[u64], room: &'a mut [u8]) -> Option<&'a [u8]> {
    let bytes = room.get_mut(..words.len())?;
    for (byte, word) in bytes.iter_mut().zip(words) {
        *byte = u8::try_from(*word).ok()?;
    }
    Some(bytes)
}

// The answer's body.
pub(crate) fn answer_to(
    op: u64,
    payload: &[u64],
    lent: &mut Lent,
    answer: &mut Answer,
) -> Option<()> {
    match Op::try_from(op).ok()? {
        Op::Table => table_case(payload, lent, answer),
        Op::Checker => checker_case(payload, lent, answer),
        Op::Name => name_case(payload, lent, answer),
        Op::Layout => layout_case(payload, lent, answer),
    }
}
