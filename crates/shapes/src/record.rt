// "Fields needed, else refusal 2" and what each code says of an entry (01, "Type stream and table").
ghost use Rattle.std.specs.Prelude.{◌≡◌};
ghost use Rattle.shapes.specs.Shapes.{needed, flag_of, adds, spaced, vector_kind, named_struct, opaque_if};
ghost use Rattle.shapes.specs.Shapes.{whole_shape, shape_of, seen_in, spelled, shape_in};

use crate::{Fault, Head, Seen, Shape};
use kinds::code::{TypeCode, UnknownCode};
use kinds::kind::TypeId;
use units::limits::is_address_space;

// "The integer width is cut to its low 32 bits first."
const WIDTH_CUT: u64 = 4_294_967_296;

fn needed(c: TypeCode) -> usize
    ensures { result ≡ needed c }
{
    match c {
        TypeCode::Integer => 1,
        TypeCode::Pointer => 2,
        TypeCode::Array => 2,
        TypeCode::Vector => 2,
        TypeCode::StructAnon => 1,
        TypeCode::StructNamed => 1,
        TypeCode::Function => 2,
        TypeCode::OpaquePointer => 1,
        TypeCode::NumEntry => 0,
        TypeCode::Plain(_) => 0,
        TypeCode::Opaque => 0,
        TypeCode::FunctionOld => 0,
        TypeCode::StructName => 0,
    }
}

// "A flag is set if its field is above 0."
fn flag_of(field: u64) -> u64
    ensures { result ≡ flag_of field }
{
    u64::from(0 < field)
}

fn adds(kind: TypeId, number: u64, flag: u64, from: usize, count: usize) -> Shape
    ensures { result ≡ adds kind number flag from count }
{
    let head = Head {
        kind: u64::from(kind),
        number,
        flag,
        count,
        named: false,
    };
    Shape::Adds(head, from)
}

fn spaced(kind: TypeId, space: u64, count: usize) -> Result<Shape, Fault>
    ensures { result ≡ spaced kind space count }
{
    if !is_address_space(space) {
        return Err(Fault::SpaceTooLarge(space));
    }
    Ok(adds(kind, space, 0, 0, count))
}

// "Vector's optional third field above 0 meaning scalable"; one that is not there is seen as 0.
fn vector_kind(third: u64) -> TypeId
    ensures { result ≡ vector_kind third }
{
    if 0 < third {
        TypeId::ScalableVector
    } else {
        TypeId::FixedVector
    }
}

fn named_struct(flag: u64, count: usize) -> Head
    ensures { result ≡ named_struct flag count }
{
    Head {
        kind: u64::from(TypeId::Struct),
        flag,
        count,
        named: true,
        ..Head::default()
    }
}

// "Opaque needs a pending name."
fn opaque_if(pending: bool) -> Result<Shape, Fault>
    ensures { result ≡ opaque_if pending }
{
    if !pending {
        return Err(Fault::NamelessOpaque);
    }
    Ok(Shape::Opaque(named_struct(0, 0), 0))
}

#[tactic(auto, unfolding(crate::specs::Shapes::whole_shape))]
fn whole_shape(c: TypeCode, s: Seen, pending: bool) -> Result<Shape, Fault>
    ensures { result ≡ whole_shape c s pending }
{
    let behind_first = s.count.saturating_sub(1);
    let flag = flag_of(s.first);
    match c {
        TypeCode::NumEntry => Ok(Shape::Nothing),
        TypeCode::Plain(kind) => Ok(adds(kind, 0, 0, 0, 0)),
        TypeCode::Opaque => opaque_if(pending),
        TypeCode::Integer => Ok(adds(TypeId::Integer, s.first % WIDTH_CUT, 0, 0, 0)),
        TypeCode::Pointer => spaced(TypeId::Pointer, s.second, 1),
        TypeCode::FunctionOld => Err(Fault::OldFunction),
        TypeCode::Array => Ok(adds(TypeId::Array, s.first, 0, 1, 1)),
        TypeCode::Vector => Ok(adds(vector_kind(s.third), s.first, 0, 1, 1)),
        TypeCode::StructAnon => Ok(adds(TypeId::Struct, 0, flag, 1, behind_first)),
        TypeCode::StructName => Ok(Shape::Name),
        TypeCode::StructNamed => Ok(Shape::Named(named_struct(flag, behind_first), 1)),
        TypeCode::Function => Ok(adds(TypeId::Function, 0, flag, 1, behind_first)),
        TypeCode::OpaquePointer => spaced(TypeId::OpaquePointer, s.first, 0),
    }
}

// "within one: missing field, then its other faults by number"; an unknown code needs no field
pub fn shape_of(c: Result<TypeCode, UnknownCode>, s: Seen, pending: bool) -> Result<Shape, Fault>
    ensures { result ≡ shape_of c s pending }
{
    let c = c?;
    if s.count < needed(c) {
        return Err(Fault::LacksField);
    }
    whole_shape(c, s, pending)
}

fn seen_in(fields: &[u64]) -> Seen
    ensures { result ≡ seen_in fields.now }
{
    Seen {
        count: fields.len(),
        first: fields.first().copied().unwrap_or(0),
        second: fields.get(1).copied().unwrap_or(0),
        third: fields.get(2).copied().unwrap_or(0),
    }
}

// "StructName needs at least one field, each at most 255, well-formed UTF-8 within the record, else 5."
fn spelled(fields: &[u64], shape: Shape) -> Result<Shape, Fault>
    ensures { result ≡ spelled fields.now shape }
{
    match shape {
        Shape::Name if fields.is_empty() || !utf8::is_utf8(fields) => Err(Fault::BadName),
        _ => Ok(shape),
    }
}

pub fn shape_in(code: u64, fields: &[u64], pending: bool) -> Result<Shape, Fault>
    ensures { result ≡ shape_in code fields.now pending }
{
    // Kept: the code is judged here, since to hand the whole result on to `shape_of` costs each record a second jump.
    let code = TypeCode::try_from(code)?;
    let shape = shape_of(Ok(code), seen_in(fields), pending)?;
    spelled(fields, shape)
}
