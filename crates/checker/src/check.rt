// "It says yes exactly if .." (01, "Resolution").
ghost use Rattle.std.specs.Prelude.{◌≡◌, length, get_or, take, drop};
ghost use Rattle.table.specs.Rows.{place_of, row_at};
ghost use Rattle.formed.specs.Form.{placed};
ghost use Rattle.checker.specs.Checked.{refers, every_from, lawful, entry_ok, rows_from, checked};

use crate::form::is_formed;
use kinds::kind::TypeId;
use rules::{MAX_ENTRIES, counts, may_stand, place_of};
use table::row::{Row, entry_room, row_at};
use table::{Rank, TypeRef};
use units::limits::is_integer_width;

// A table of so many entries as it is lent, with the ranks that it claims.
#[derive(Clone, Copy)]
struct Table<'a> {
    rows: &'a [u64],
    refs: &'a [u64],
    names: &'a [u8],
    ranks: &'a [u64],
    count: usize,
}

// Kept: `table::row::place_of` answers the same, but the first pass places its stretches by it. The checker trusts nobody, so that a slip
// there is not its own: it shares the leaves alone.
fn place_of_stretch(count: u64, fill: u64) -> u64
    ensures { result ≡ place_of count fill }
{
    match count {
        0 => 0,
        _ => fill,
    }
}

// "consecutive from 0 without gaps", where so much of the room is filled.
fn is_placed(place: u64, count: u64, fill: u64, room: u64) -> bool
    ensures { result ≡ placed place count fill room }
{
    place == place_of_stretch(count, fill) && count <= room.saturating_sub(fill)
}

impl Table<'_> {
    fn rank_at(&self, e: TypeRef) -> Rank
        ensures { result.0 ≡ get_or self.now.ranks.now e.0 0 }
    {
        Rank(self.ranks.get(e.0 as usize).copied().unwrap_or(0))
    }

    // Reference number i of entry e.
    #[tactic(auto, unfolding(crate::specs::Checked::refers))]
    fn is_reference(&self, e: TypeRef, i: usize, to: TypeRef) -> bool
        ensures { let t = self.now in result ≡ refers t.rows.now t.ranks.now t.count e.0 i to.0 }
    {
        if self.count <= to.0 as usize {
            return false;
        }
        let from = row_at(self.rows, e.0 as usize);
        let other = row_at(self.rows, to.0 as usize);
        may_stand(place_of(from.kind, i), other.kind)
            && (!counts(from, other) || self.rank_at(to) < self.rank_at(e))
    }

    fn are_references(&self, e: TypeRef, stretch: &[u64]) -> bool
        ensures { let t = self.now in result ≡ every_from (refers t.rows.now t.ranks.now t.count e.0) 0 stretch.now }
    {
        stretch
            .iter()
            .enumerate()
            .all(|(i, &to)| self.is_reference(e, i, TypeRef(to)))
    }

    // The references that the row says, as far as they lie in the buffer.
    // Kept: `table::row::Row::references` cuts the same stretch, but for the walk, of which the checker takes nothing.
    fn references(&self, row: Row) -> &[u64]
        ensures { result.now ≡ take row.count (drop row.first self.now.refs.now) }
    {
        let first = self.refs.len().min(row.first as usize);
        let rest = &self.refs[first..];
        &rest[..rest.len().min(row.count as usize)]
    }

    // The width and the references of entry e.
    fn is_lawful(&self, e: usize) -> bool
        ensures { let t = self.now in result ≡ lawful t.rows.now t.refs.now t.ranks.now t.count e }
    {
        let row = row_at(self.rows, e);
        (row.kind != u64::from(TypeId::Integer) || is_integer_width(row.number))
            && self.are_references(TypeRef(e as u64), self.references(row))
    }

    // Entry e, behind so many references and name bytes.
    fn is_entry(&self, e: usize, refs: u64, bytes: u64) -> bool
        ensures { let t = self.now in result ≡ entry_ok t.rows.now t.refs.now (length t.names.now) t.ranks.now t.count e refs bytes }
    {
        let row = row_at(self.rows, e);
        is_formed(row)
            && is_placed(row.first, row.count, refs, self.refs.len() as u64)
            && is_placed(row.start, row.len, bytes, self.names.len() as u64)
            && self.is_lawful(e)
    }

    fn are_entries(&self) -> bool
        ensures { let t = self.now in result ≡ rows_from t.rows.now t.refs.now (length t.names.now) t.ranks.now t.count t.count 0 0 0 }
    {
        let mut refs = 0;
        let mut bytes = 0;
        for e in 0..self.count {
            if !self.is_entry(e, refs, bytes) {
                return false;
            }
            let row = row_at(self.rows, e);
            refs += row.count;
            bytes += row.len;
        }
        true
    }
}

#[tactic(auto, unfolding(crate::specs::Checked::checked))]
pub fn check(rows: &[u64], refs: &[u64], names: &[u8], ranks: &[u64], count: usize) -> bool
    ensures { result ≡ checked rows.now refs.now names.now ranks.now count }
{
    let table = Table {
        rows,
        refs,
        names,
        ranks,
        count,
    };
    count as u64 <= MAX_ENTRIES
        && count <= entry_room(rows.len())
        && count <= ranks.len()
        && table.are_entries()
}
