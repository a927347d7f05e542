// The writers: a row, its references, and a pending name, each over the unused rest of its output from the fill mark on.
ghost use Rattle.std.specs.Prelude.{◌≡◌, List, ◌++◌, ℕ, ◌+◌, ◌≤◌, ◌<◌, ◌^◌, length};
ghost use Rattle.table.specs.Buffers.{over, low_bytes};
ghost use Rattle.table.specs.Entries.{Entry};
ghost use Rattle.records.specs.Table.{Table, puts};
ghost use Rattle.records.specs.Records.{after};
ghost use Rattle.records.specs.Values.{filled_of, end_of, has_room, row_for, grown};
ghost use Rattle.records.specs.Held.{Buffers, room_in, Holds, After, mark_of, Ready};
ghost use Rattle.records.specs.Putting.{Puts, Fits};

use crate::{Filled, Put};
use shapes::Fault;
use table::buffer::{put_bytes, put_words};
use table::row;
use table::row::{ROW_WORDS, Row, put_row};

fn end_of(p: Put, f: Filled) -> usize
    ensures { result ≡ end_of p f }
{
    if p.head.named { f.mark } else { f.taken }
}

fn has_room(p: Put, f: Filled, entries: usize, refs: usize, names: usize) -> bool
    requires { f.refs ≤ refs }
    ensures { result ≡ has_room p f entries refs names }
{
    p.row < entries && p.more <= refs - f.refs && end_of(p, f) <= names
}

fn row_of(p: Put, f: Filled) -> Row
    requires { (p.kept ≤ f.refs) × (f.taken ≤ f.mark) }
    ensures { result ≡ row_for p f }
{
    let head = p.head;
    let len = (end_of(p, f) - f.taken) as u64;
    Row {
        kind: head.kind,
        number: head.number,
        flag: head.flag,
        first: row::place_of(head.count as u64, (f.refs - p.kept) as u64),
        count: head.count as u64,
        start: row::place_of(len, f.taken as u64),
        len,
        named: u64::from(head.named),
    }
}

fn grow(p: Put, f: Filled) -> Filled
    requires { (p.row + 1 < 2 ^ 64) × (f.refs + p.more < 2 ^ 64) }
    ensures { result ≡ grown p f }
{
    Filled {
        entries: p.row + 1,
        refs: f.refs + p.more,
        taken: end_of(p, f),
        mark: f.mark,
        last: p.head,
    }
}

// Of a pending name what does not fit is not kept: a struct that took it would be refused.
pub(crate) fn stage(names: &mut [u8], fields: &[u64], mark: usize)
    ensures { (xs b : List ℕ) → names.old ≡ over xs b → mark ≡ length xs
        → names.new ≡ over (xs ++ low_bytes fields.now) b }
{
    if names.len() <= mark {
        return;
    }
    put_bytes(&mut names[mark..], fields);
}

pub(crate) fn put(
    fields: &[u64],
    rows: &mut [u64],
    refs: &mut [u64],
    names: usize,
    p: Put,
    f: Filled,
    entries: usize,
) -> Result<Filled, Fault>
    requires { Ready entries f (length rows.old) (length refs.old) (length fields.now) × Fits p f (length fields.now) }
    ensures after { (b : Buffers) (t : Table) (z : List ℕ) (front : List Entry) (e : Entry)
        → Holds b t rows.old refs.old z → f ≡ filled_of t → names ≡ length b.names
        → Puts t fields.now p front e
        → After b (after (room_in entries b) t (puts front e)) result rows.new refs.new z }
    ensures mark { mark_of result ≤ f.mark }
{
    if !has_room(p, f, entries, refs.len(), names) {
        return Err(Fault::NoRoom);
    }
    put_row(&mut rows[p.row * ROW_WORDS..], row_of(p, f));
    put_words(&mut refs[f.refs..], &fields[p.from..p.from + p.more]);
    Ok(grow(p, f))
}
