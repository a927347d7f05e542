// "A struct's name can be asked for and comes back as the very part of the lent name buffer" (01, "Type stream and table").
#![tactic(auto)]

ghost use Rattle.std.specs.Prelude.{◌≡◌, length};
ghost use Rattle.lookup.specs.Names.{stretch_of, has_name, IsName};

use kinds::kind::TypeId;
use std::ops::Range;
use table::{TypeRef, row};

// The stretch that the row of the entry names, in a buffer of so many bytes: from its first byte to past its last.
#[tactic(auto, unfolding(crate::specs::Names::stretch_in))]
pub fn stretch_of(rows: &[u64], bytes: usize, entry: TypeRef) -> Option<Range<usize>>
    ensures { result ≡ stretch_of rows.now bytes entry.0 }
{
    let e = entry.0 as usize;
    if row::entry_room(rows.len()) <= e {
        return None;
    }
    let row = row::row_at(rows, e);
    if row.kind != u64::from(TypeId::Struct) || row.named != 1 {
        return None;
    }
    let start = row.start as usize;
    let end = start.checked_add(row.len as usize)?;
    (end <= bytes).then_some(start..end)
}

// "Whether there is one is a question apart."
pub fn has_name(rows: &[u64], names: &[u8], entry: TypeRef) -> bool
    ensures { result ≡ has_name rows.now (length names.now) entry.0 }
{
    stretch_of(rows, names.len(), entry).is_some()
}

// The named stretch of the caller's bytes, without copying; "where there is none the part is the buffer's first 0 bytes".
#[tactic(auto, unfolding(crate::specs::Names::stretch_in))]
pub fn name<'a>(rows: &[u64], names: &'a [u8], entry: TypeRef) -> &'a [u8]
    ensures { IsName rows.now entry.0 names.now names.entry.ref_ptr result.now result.ref_ptr }
{
    match stretch_of(rows, names.len(), entry) {
        Some(stretch) => &names[stretch],
        None => &names[..0],
    }
}
