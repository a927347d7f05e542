// "Codes (LLVMBitCodes.h)" (01, "Type stream and table"), in that order, and what each says of its record.
ghost use Rattle.std.specs.Prelude.{◌≡◌};
ghost use Rattle.kinds.specs.Codes.{type_code};

use crate::kind::TypeId;

// The Rust's `TypeCode`, where the codes whose record says nothing but its kind are one case that holds the kind.
#[derive(Clone, Copy, Debug, PartialEq, Eq)]
pub enum TypeCode {
    NumEntry,
    Plain(TypeId),
    Opaque,
    Integer,
    Pointer,
    FunctionOld,
    Array,
    Vector,
    StructAnon,
    StructName,
    StructNamed,
    Function,
    OpaquePointer,
}

// A number that is no code.
#[derive(Clone, Copy, Debug, PartialEq, Eq)]
pub struct UnknownCode(pub u64);

impl TryFrom<u64> for TypeCode {
    type Error = UnknownCode;

    ghost try_from_gives = { λ code r. r ≡ type_code code };

    #[tactic(auto, unfolding(crate::specs::Codes::type_code))]
    fn try_from(code: u64) -> Result<Self, UnknownCode> {
        match code {
            1 => Ok(TypeCode::NumEntry),
            2 => Ok(TypeCode::Plain(TypeId::Void)),
            3 => Ok(TypeCode::Plain(TypeId::Float)),
            4 => Ok(TypeCode::Plain(TypeId::Double)),
            5 => Ok(TypeCode::Plain(TypeId::Label)),
            6 => Ok(TypeCode::Opaque),
            7 => Ok(TypeCode::Integer),
            8 => Ok(TypeCode::Pointer),
            9 => Ok(TypeCode::FunctionOld),
            10 => Ok(TypeCode::Plain(TypeId::Half)),
            11 => Ok(TypeCode::Array),
            12 => Ok(TypeCode::Vector),
            13 => Ok(TypeCode::Plain(TypeId::X86Fp80)),
            14 => Ok(TypeCode::Plain(TypeId::Fp128)),
            15 => Ok(TypeCode::Plain(TypeId::PpcFp128)),
            16 => Ok(TypeCode::Plain(TypeId::Metadata)),
            17 => Ok(TypeCode::Plain(TypeId::X86Mmx)),
            18 => Ok(TypeCode::StructAnon),
            19 => Ok(TypeCode::StructName),
            20 => Ok(TypeCode::StructNamed),
            21 => Ok(TypeCode::Function),
            22 => Ok(TypeCode::Plain(TypeId::Token)),
            23 => Ok(TypeCode::Plain(TypeId::BFloat)),
            24 => Ok(TypeCode::Plain(TypeId::X86Amx)),
            25 => Ok(TypeCode::OpaquePointer),
            _ => Err(UnknownCode(code)),
        }
    }
}
