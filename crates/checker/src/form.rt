// "every row is well formed as above" (01, "Resolution").
ghost use Rattle.std.specs.Prelude.{◌≡◌};
ghost use Rattle.kinds.specs.TypeIds.{number as number_of};
ghost use Rattle.formed.specs.Form.{number_form, flag_form, count_form, named_form, formed};

use kinds::kind::TypeId::{
    self, Array, FixedVector, Function, Integer, OpaquePointer, Pointer, ScalableVector, Struct,
};
use table::row::Row;
use units::limits::is_address_space;

fn is_number(kind: TypeId, number: u64) -> bool
    ensures { result ≡ number_form (number_of kind) number }
{
    match kind {
        Integer | Array | FixedVector | ScalableVector => true,
        Pointer | OpaquePointer => is_address_space(number),
        _ => number == 0,
    }
}

fn is_flag(kind: TypeId, flag: u64) -> bool
    ensures { result ≡ flag_form (number_of kind) flag }
{
    match kind {
        Function | Struct => flag <= 1,
        _ => flag == 0,
    }
}

fn is_count(kind: TypeId, count: u64) -> bool
    ensures { result ≡ count_form (number_of kind) count }
{
    match kind {
        Function => 1 <= count,
        Struct => true,
        Pointer | Array | FixedVector | ScalableVector => count == 1,
        _ => count == 0,
    }
}

fn is_named(kind: TypeId, named: u64) -> bool
    ensures { result ≡ named_form (number_of kind) named }
{
    match kind {
        Struct => named <= 1,
        _ => named == 0,
    }
}

#[tactic(auto, unfolding(formed::specs::Form::formed))]
pub fn is_formed(row: Row) -> bool
    ensures { result ≡ formed row }
{
    let Ok(kind) = TypeId::try_from(row.kind) else {
        return false;
    };
    is_number(kind, row.number)
        && is_flag(kind, row.flag)
        && is_count(kind, row.count)
        && is_named(kind, row.named)
        && (row.len == 0 || row.named == 1)
}
