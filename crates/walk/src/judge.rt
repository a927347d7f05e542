// "then its own rule is judged" (01, "Resolution"): the width of an integer, the kinds that an entry refers to.
ghost use Rattle.std.specs.Prelude.{◌≡◌};
ghost use Rattle.table.specs.Rows.{row_at};
ghost use Rattle.rules.specs.Lawful.{first_bad, rule_at};
ghost use Rattle.walk.specs.Answers.{verdict_of};

use crate::Fault;
use kinds::kind::TypeId;
use rules::{may_stand, place_of};
use table::row::{Row, row_at};
use units::limits::is_integer_width;

// A table by its rows and its references, as the first pass leaves them.
#[derive(Clone, Copy)]
pub(crate) struct Table<'a> {
    pub rows: &'a [u64],
    pub refs: &'a [u64],
}

impl Table<'_> {
    pub fn row(&self, e: usize) -> Row
        ensures { result ≡ row_at self.now.rows.now e }
    {
        row_at(self.rows, e)
    }

    // "first bad referent": of an entry of the kind that refers to the stretch.
    fn first_bad(&self, kind: u64, stretch: &[u64]) -> Result<(), Fault>
        ensures { verdict_of result ≡ first_bad self.now.rows.now kind 0 stretch.now }
    {
        for (i, &to) in stretch.iter().enumerate() {
            let place = place_of(kind, i);
            let row = self.row(to as usize);
            if !may_stand(place, row.kind)
                && let Some(place) = place
            {
                return Err(Fault::Referent(place, to));
            }
        }
        Ok(())
    }

    pub fn judge(&self, e: usize) -> Result<(), Fault>
        ensures { verdict_of result ≡ rule_at self.now.rows.now self.now.refs.now e }
    {
        let row = self.row(e);
        if row.kind == u64::from(TypeId::Integer) && !is_integer_width(row.number) {
            return Err(Fault::Width(row.number));
        }
        self.first_bad(row.kind, row.references(self.refs))
    }
}
