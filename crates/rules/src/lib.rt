// What document 01 asks of a reference: in which place it stands, which kinds may stand there, and whether it counts for ranks.
// The walk and the checker both ask here.
#![tactic(auto)]

ghost use Rattle.std.specs.Prelude.{◌≡◌};
ghost use Rattle.kinds.specs.Places.{allowed};
ghost use Rattle.rules.specs.Places.{place_at, not_allowed};
ghost use Rattle.rules.specs.Counts.{counted};

use kinds::kind::TypeId;
use kinds::place;
use table::row;
use table::row::Row;

// "9 is given exactly if the record needs an entry beyond the least of 4,096, .." and "the count is at most 4,096" (01).
pub const MAX_ENTRIES: u64 = row::MAX_ENTRIES;

// The places of "Allowed kinds" (01).
#[derive(Clone, Copy, Debug, PartialEq, Eq)]
pub enum Place {
    Pointee,
    ArrayElement,
    StructElement,
    VectorElement,
    Return,
    Argument,
}

// The place of reference number i of an entry of the kind. A kind that has no references is in no line of the table.
#[tactic(auto, unfolding(crate::specs::Places::place_at))]
pub fn place_of(kind: u64, i: usize) -> Option<Place>
    ensures { result ≡ place_at kind i }
{
    match TypeId::try_from(kind).ok()? {
        TypeId::Function if i == 0 => Some(Place::Return),
        TypeId::Function => Some(Place::Argument),
        TypeId::Pointer => Some(Place::Pointee),
        TypeId::Struct => Some(Place::StructElement),
        TypeId::Array => Some(Place::ArrayElement),
        TypeId::FixedVector | TypeId::ScalableVector => Some(Place::VectorElement),
        _ => None,
    }
}

// Kept: a table of functions, `[place::is_pointee, ..][place as usize](kind)`, is no plainer, and may lack a place.
pub fn may_stand(place: Option<Place>, kind: u64) -> bool
    ensures { result ≡ allowed (not_allowed place) kind }
{
    match place {
        Some(Place::Pointee) => place::is_pointee(kind),
        Some(Place::ArrayElement) => place::is_array_element(kind),
        Some(Place::StructElement) => place::is_struct_element(kind),
        Some(Place::VectorElement) => place::is_vector_element(kind),
        Some(Place::Return) => place::is_return(kind),
        Some(Place::Argument) => place::is_argument(kind),
        None => true,
    }
}

// A reference of an entry with the row `from` to one with the row `to` is walked and bounds the rank. 2026-06 exempts some.
#[tactic(auto, unfolding(crate::specs::Counts::counted))]
pub fn counts(from: Row, to: Row) -> bool
    ensures { result ≡ counted from to }
{
    true
}
