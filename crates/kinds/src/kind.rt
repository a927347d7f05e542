// "Kinds follow `TypeId`" (01, "Type stream and table"), in its order; `OpaquePointer` is added behind it.
ghost use Rattle.std.specs.Prelude.{◌≡◌};
ghost use Rattle.kinds.specs.TypeIds.{number, Says};

#[derive(Clone, Copy, Debug, PartialEq, Eq)]
pub enum TypeId {
    Half,
    BFloat,
    Float,
    Double,
    X86Fp80,
    Fp128,
    PpcFp128,
    Void,
    Label,
    Metadata,
    X86Mmx,
    X86Amx,
    Token,
    Integer,
    Function,
    Pointer,
    Struct,
    Array,
    FixedVector,
    ScalableVector,
    OpaquePointer,
}

// A number that no kind has.
#[derive(Clone, Copy, Debug, PartialEq, Eq)]
pub struct UnknownKind(pub u64);

impl TryFrom<u64> for TypeId {
    type Error = UnknownKind;

    ghost try_from_gives = { Says };

    fn try_from(kind: u64) -> Result<Self, UnknownKind> {
        match kind {
            0 => Ok(TypeId::Half),
            1 => Ok(TypeId::BFloat),
            2 => Ok(TypeId::Float),
            3 => Ok(TypeId::Double),
            4 => Ok(TypeId::X86Fp80),
            5 => Ok(TypeId::Fp128),
            6 => Ok(TypeId::PpcFp128),
            7 => Ok(TypeId::Void),
            8 => Ok(TypeId::Label),
            9 => Ok(TypeId::Metadata),
            10 => Ok(TypeId::X86Mmx),
            11 => Ok(TypeId::X86Amx),
            12 => Ok(TypeId::Token),
            13 => Ok(TypeId::Integer),
            14 => Ok(TypeId::Function),
            15 => Ok(TypeId::Pointer),
            16 => Ok(TypeId::Struct),
            17 => Ok(TypeId::Array),
            18 => Ok(TypeId::FixedVector),
            19 => Ok(TypeId::ScalableVector),
            20 => Ok(TypeId::OpaquePointer),
            _ => Err(UnknownKind(kind)),
        }
    }
}

// A kind as the first word of a row.
impl From<TypeId> for u64 {
    ghost from_gives = { λ kind n. n ≡ number kind };

    fn from(kind: TypeId) -> u64 {
        kind as u64
    }
}
