// Where the entry of a record goes. Opaque and StructNamed fill the last entry if that is a struct (01; 2026-01 ends it).
ghost use Rattle.std.specs.Prelude.{◌≡◌};
ghost use Rattle.records.specs.Values.{behind, in_last, opaque_by, named_by, deed_by};

use crate::{Deed, Filled, Put};
use kinds::kind::TypeId;
use shapes::{Fault, Head, Shape};

// Kept: a head and where its references start are the two values of a shape's case; a struct of both is no plainer.
fn behind(h: Head, from: usize, f: Filled) -> Put
    ensures { result ≡ behind h from f }
{
    Put {
        head: h,
        row: f.entries,
        kept: 0,
        from,
        more: h.count,
    }
}

// "keeps the old packed flag": the head is the last entry's, but for its name and what count says.
fn in_last(h: Head, count: usize, kept: usize, from: usize, more: usize, f: Filled) -> Put
    ensures { result ≡ in_last h count kept from more f }
{
    Put {
        head: Head {
            count,
            named: h.named,
            ..f.last
        },
        row: f.entries.saturating_sub(1),
        kept,
        from,
        more,
    }
}

// "If the last entry is a struct, Opaque names it (7 if already named), else it adds an empty unpacked struct."
fn opaque_on(h: Head, from: usize, f: Filled) -> Result<Deed, Fault>
    ensures { result ≡ opaque_by h from f }
{
    let last = f.last;
    if last.kind != u64::from(TypeId::Struct) {
        return Ok(Deed::Put(behind(h, from, f)));
    }
    if last.named {
        return Err(Fault::AlreadyFilled);
    }
    Ok(Deed::Put(in_last(h, last.count, last.count, 0, 0, f)))
}

// "StructNamed fills the last entry if that is a struct: 7 if it has a name or fields".
fn named_on(h: Head, from: usize, f: Filled) -> Result<Deed, Fault>
    ensures { result ≡ named_by h from f }
{
    let last = f.last;
    if last.kind != u64::from(TypeId::Struct) {
        return Ok(Deed::Put(behind(h, from, f)));
    }
    if last.named || 0 < last.count {
        return Err(Fault::AlreadyFilled);
    }
    Ok(Deed::Put(in_last(h, h.count, 0, from, h.count, f)))
}

pub(crate) fn deed_on(s: Shape, f: Filled) -> Result<Deed, Fault>
    ensures { result ≡ deed_by s f }
{
    match s {
        Shape::Nothing => Ok(Deed::Pass),
        Shape::Name => Ok(Deed::Pend),
        Shape::Adds(h, from) => Ok(Deed::Put(behind(h, from, f))),
        Shape::Opaque(h, from) => opaque_on(h, from, f),
        Shape::Named(h, from) => named_on(h, from, f),
    }
}
