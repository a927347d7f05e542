// "An entry asks its list of references, and the list asks its entries" (01, "Resolution"). The witness holds a mark for each entry:
// 0 not started; one more than its depth while it is on the path; then its rank and FINISHED. At a ring all marks are cleared, and
// each entry of the ring writes itself as the answer goes back over it, so that no path is stored.
ghost use Rattle.std.specs.Prelude.{◌≡◌, ◌+◌, ◌≤◌, ◌<◌, max, length};
ghost use Rattle.table.specs.Buffers.{zeros};
ghost use Rattle.ranks.specs.Walk.{judged};
ghost use Rattle.ranks.specs.Walk as ranks;
ghost use Rattle.rules.specs.Lawful.{rule_at, table_of, max_entries};
ghost use Rattle.walk.specs.Resolve.{entries_of, Resolves};
ghost use Rattle.walk.specs.Marks.{plainly, Ready, Upward, Finished, EntryWalked, StretchWalked};

use crate::judge::Table;
use crate::marks::{FINISHED, enter_ring, entries, settle};
use crate::{Error, Fault, Stop};
use rules::counts;
use table::Rank;

// "one more than the largest rank it refers to": of the references so far, whose rank is best, and of one more.
fn above(best: Rank, rank: Rank) -> Rank
    requires { rank.0 < max_entries }
    ensures { result.0 ≡ max best.0 (rank.0 + 1) }
{
    best.max(Rank(rank.0 + 1))
}

// "then its own rule is judged": the references of e are resolved, and give it the rank.
fn finish(table: &Table, marks: &mut [u64], e: usize, rank: Rank) -> Result<Rank, Stop>
    requires within { e < length marks.old }
    requires low { rank.0 < max_entries }
    ensures { Finished marks.old marks.new e rank.0 result
        (judged (rule_at table.now.rows.now table.now.refs.now e) e (plainly marks.old) rank.0) }
{
    table
        .judge(e)
        .map_err(|fault| Stop::Refused { entry: e, fault })?;
    marks[e] = rank.0 + FINISHED;
    Ok(rank)
}

// Kept: the marks are lent beside the table, since a caller that lends them in a struct is not proved (as in records, `take_record`).
// "a finished entry is not walked again. Meeting an unfinished entry is refusal 19": a mark says which, and at which depth.
#[cycle(resolve_entry_resolve_stretch)]
fn resolve_entry(table: &Table, marks: &mut [u64], depth: usize, e: usize) -> Result<Rank, Stop>
    requires within { e < length marks.old }
    requires ready { Ready marks.old depth depth }
    ensures { EntryWalked table.now.rows.now table.now.refs.now marks.old depth e marks.new result }
{
    let mark = marks[e];
    if FINISHED <= mark {
        return Ok(Rank(mark - FINISHED));
    }
    if mark != 0 {
        let from = (mark - 1) as usize;
        marks.fill(0);
        return Err(Stop::Ring {
            again: e,
            from,
            len: depth.saturating_sub(from),
        });
    }
    marks[e] = depth as u64 + 1;
    let stretch = table.row(e).references(table.refs);
    match resolve_stretch(table, marks, depth + 1, e, stretch) {
        Ok(rank) => finish(table, marks, e, rank),
        Err(Stop::Ring { again, from, len }) => {
            enter_ring(marks, depth, from, e);
            Err(Stop::Ring { again, from, len })
        }
        Err(Stop::Refused { entry, fault }) => Err(Stop::Refused { entry, fault }),
    }
}

// The references of entry e, in order, each fully. A loop, so that a stretch of any length takes one frame of the stack.
// A finished entry's mark tells its rank, without a call.
#[cycle(resolve_entry_resolve_stretch)]
fn resolve_stretch(
    table: &Table,
    marks: &mut [u64],
    depth: usize,
    e: usize,
    stretch: &[u64],
) -> Result<Rank, Stop>
    requires ready { Ready marks.old depth depth }
    ensures { StretchWalked table.now.rows.now table.now.refs.now marks.old depth e stretch.now marks.new result }
{
    let mut best = Rank(0);
    for &to in stretch {
        let k = to as usize;
        if marks.len() <= k {
            return Err(Stop::Refused {
                entry: e,
                fault: Fault::OutOfRange(to),
            });
        }
        if !counts(table.row(e), table.row(k)) {
            continue;
        }
        let known = marks[k];
        if FINISHED <= known {
            best = above(best, Rank(known - FINISHED));
            continue;
        }
        let rank = resolve_entry(table, marks, depth, k)?;
        best = above(best, rank);
    }
    Ok(best)
}

// "From entry 0 upward".
fn resolve_upward(table: &Table, marks: &mut [u64]) -> Result<(), Stop>
    requires few { length marks.old ≤ max_entries }
    requires fresh { marks.old ≡ zeros (length marks.old) }
    ensures { Upward marks.new result
        (ranks.resolve (table_of table.now.rows.now table.now.refs.now (length marks.old))) }
{
    for e in 0..marks.len() {
        resolve_entry(table, marks, 0, e)?;
    }
    Ok(())
}

// The marks become the ranks; "19 leaves its ring first in the witness"; else "outputs all zero".
fn resolve_marks(table: &Table, marks: &mut [u64]) -> Result<(), Error>
    requires few { length marks.old ≤ max_entries }
    requires fresh { marks.old ≡ zeros (length marks.old) }
    ensures { Resolves table.now.rows.now table.now.refs.now (length marks.old) (length marks.old)
        result marks.new }
{
    match resolve_upward(table, marks) {
        Ok(()) => {
            settle(marks);
            Ok(())
        }
        Err(Stop::Ring { again, len, .. }) => Err(Error::Cycle { again, length: len }),
        Err(Stop::Refused { entry, fault }) => {
            marks.fill(0);
            Err(Error::Refused { entry, fault })
        }
    }
}

// The second pass over the first `count` entries, as far as rows, witness and 4,096 reach.
pub fn resolve(rows: &[u64], refs: &[u64], count: usize, witness: &mut [u64]) -> Result<(), Error>
    ensures { Resolves rows.now refs.now
        (entries_of count (length rows.now) (length witness.old)) (length witness.old)
        result witness.new }
{
    witness.fill(0);
    let n = entries(count, rows.len(), witness.len());
    resolve_marks(&Table { rows, refs }, &mut witness[..n])
}
