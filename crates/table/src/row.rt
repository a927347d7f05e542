// "A row: kind; number; flag; first reference place; reference count; name start; name length; 1 if named"
// (01, "Type stream and table").
ghost use Rattle.std.specs.Prelude.{◌≡◌, drop, get_or, take};
ghost use Rattle.table.specs.Rows.{entry_room, place_of, row_at, words_of};
ghost use Rattle.table.specs.Buffers.{over};

use crate::buffer::put_words;

pub const ROW_WORDS: usize = 8;

// "the least of 4,096, .." and "the count is at most 4,096" (01): no table has more entries.
pub const MAX_ENTRIES: u64 = 4_096;

#[derive(Clone, Copy, Debug, Default, PartialEq, Eq)]
pub struct Row {
    pub kind: u64,
    pub number: u64,
    pub flag: u64,
    pub first: u64,
    pub count: u64,
    pub start: u64,
    pub len: u64,
    pub named: u64,
}

impl Row {
    // The references that the row says, as far as they lie in the buffer.
    pub fn references<'a>(self, refs: &'a [u64]) -> &'a [u64]
        ensures { result.now ≡ take self.count (drop self.first refs.now) }
    {
        let first = refs.len().min(self.first as usize);
        let rest = &refs[first..];
        &rest[..rest.len().min(self.count as usize)]
    }
}

// How many rows lie whole in so many words.
pub fn entry_room(words: usize) -> usize
    ensures { result ≡ entry_room words }
{
    words / ROW_WORDS
}

// "a place is 0 where its count is 0, a name start 0 where its length is 0"
pub fn place_of(count: u64, place: u64) -> u64
    ensures { result ≡ place_of count place }
{
    if count == 0 { 0 } else { place }
}

// Word i; one that is not there reads as 0.
fn word(rows: &[u64], i: usize) -> u64
    ensures { result ≡ get_or rows.now i 0 }
{
    rows.get(i).copied().unwrap_or(0)
}

// The row of entry e; words that are not there read as 0. One test serves all the words of a row that lies whole in the buffer.
pub fn row_at(rows: &[u64], e: usize) -> Row
    ensures { result ≡ row_at rows.now e }
{
    let room = entry_room(rows.len());
    if e < room {
        let at = e * ROW_WORDS;
        return Row {
            kind: rows[at],
            number: rows[at + 1],
            flag: rows[at + 2],
            first: rows[at + 3],
            count: rows[at + 4],
            start: rows[at + 5],
            len: rows[at + 6],
            named: rows[at + 7],
        };
    }
    if room < e {
        return Row::default();
    }
    let at = e * ROW_WORDS;
    Row {
        kind: word(rows, at),
        number: word(rows, at + 1),
        flag: word(rows, at + 2),
        first: word(rows, at + 3),
        count: word(rows, at + 4),
        start: word(rows, at + 5),
        len: word(rows, at + 6),
        named: word(rows, at + 7),
    }
}

// The words of a row, in their order.
fn words_of(row: Row) -> [u64; 8]
    ensures { result ≡ words_of row }
{
    [
        row.kind, row.number, row.flag, row.first, row.count, row.start, row.len, row.named,
    ]
}

// The row over the front of the unused rest. A whole row is stored at once, which costs less than a run of any length.
// Kept: each arm makes the words; made before the match, they lie on the stack for the row that fits too.
pub fn put_row(rest: &mut [u64], row: Row)
    ensures { rest.new ≡ over (words_of row) rest.old }
{
    match rest.first_chunk_mut() {
        Some(whole) => *whole = words_of(row),
        None => put_words(rest, &words_of(row)),
    }
}
