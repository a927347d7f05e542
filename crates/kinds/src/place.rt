// "Allowed kinds" (01): which kinds may stand in a place. The names are those of ty.rs, whose `Type` is a number here.
ghost use Rattle.std.specs.Prelude.{◌≡◌};
ghost use Rattle.kinds.specs.Places.{allowed, pointee, array_element, struct_element, vector_element, returned, argument};

use crate::kind::TypeId;

// Kept: the six questions are matches on a number with ranges, the form that 01 names for them, and answer for every number.
const HALF: u64 = TypeId::Half as u64;

const PPC_FP128: u64 = TypeId::PpcFp128 as u64;

const VOID: u64 = TypeId::Void as u64;

const LABEL: u64 = TypeId::Label as u64;

const METADATA: u64 = TypeId::Metadata as u64;

const X86_AMX: u64 = TypeId::X86Amx as u64;

const TOKEN: u64 = TypeId::Token as u64;

const INTEGER: u64 = TypeId::Integer as u64;

const FUNCTION: u64 = TypeId::Function as u64;

const POINTER: u64 = TypeId::Pointer as u64;

const SCALABLE_VECTOR: u64 = TypeId::ScalableVector as u64;

pub fn is_pointee(kind: u64) -> bool
    ensures { result ≡ allowed pointee kind }
{
    !matches!(kind, VOID..=METADATA | X86_AMX..=TOKEN)
}

pub fn is_array_element(kind: u64) -> bool
    ensures { result ≡ allowed array_element kind }
{
    !matches!(kind, VOID..=METADATA | X86_AMX..=TOKEN | FUNCTION | SCALABLE_VECTOR)
}

pub fn is_struct_element(kind: u64) -> bool
    ensures { result ≡ allowed struct_element kind }
{
    !matches!(kind, VOID..=METADATA | TOKEN | FUNCTION)
}

pub fn is_vector_element(kind: u64) -> bool
    ensures { result ≡ allowed vector_element kind }
{
    matches!(kind, HALF..=PPC_FP128 | INTEGER | POINTER)
}

pub fn is_return(kind: u64) -> bool
    ensures { result ≡ allowed returned kind }
{
    !matches!(kind, LABEL..=METADATA | FUNCTION)
}

pub fn is_argument(kind: u64) -> bool
    ensures { result ≡ allowed argument kind }
{
    !matches!(kind, VOID | FUNCTION)
}
