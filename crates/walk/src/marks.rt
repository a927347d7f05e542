// The words of the witness: a ring is written into it, and marks become ranks.
ghost use Rattle.std.specs.Prelude.{◌≡◌, cond, map, ◌-◌, leb, set};
ghost use Rattle.walk.specs.Resolve.{entries_of};
ghost use Rattle.walk.specs.Marks.{ranked};

use rules::MAX_ENTRIES;
use table::row::entry_room;

// Kept: a mark is a number and no enum, since it stands in a word of the lent witness.
pub const FINISHED: u64 = MAX_ENTRIES + 1;

// As many entries as rows of so many words, a witness of that room and 4,096 have place for.
pub(crate) fn entries(count: usize, words: usize, room: usize) -> usize
    ensures { result ≡ entries_of count words room }
{
    let rows = entry_room(words);
    count.min(rows.min(room.min(MAX_ENTRIES as usize)))
}

// An entry at that depth of the path is in the ring if the entry met again was begun no deeper.
pub(crate) fn enter_ring(marks: &mut [u64], depth: usize, from: usize, e: usize)
    ensures { marks.new ≡ cond (leb from depth) (set marks.old (depth - from) e) marks.old }
{
    if from <= depth && depth - from < marks.len() {
        marks[depth - from] = e as u64;
    }
}

// The mark of a finished entry becomes its rank.
pub(crate) fn settle(marks: &mut [u64])
    ensures { marks.new ≡ map ranked marks.old }
{
    for mark in marks.iter_mut() {
        *mark = mark.saturating_sub(FINISHED);
    }
}
