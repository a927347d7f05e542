// The layout record: `DataLayout` of datalayout.rs.
use crate::numbers::Numbers;
use crate::pointers::PointerAlignSpecs;
use crate::types::TypeAlignSpecs;
use units::align::Align;

#[derive(Clone, Copy, Debug, PartialEq, Eq)]
pub enum Endian {
    Big,
    Little,
}

#[derive(Clone, Copy, PartialEq, Eq)]
pub enum FunctionPointerAlign {
    Independent(Align),
    MultipleOfFunctionAlign(Align),
}

#[derive(Clone, Copy, Debug, PartialEq, Eq)]
pub enum Mangling {
    Elf,
    Mips,
    Macho,
    WindowsX86Coff,
    WindowsCoff,
    XCoff,
}

// Which of the three address spaces, and which of the two lists, a spec is about.
#[derive(Clone, Copy, Debug, PartialEq, Eq)]
pub enum Memory {
    Program,
    GlobalVariable,
    Alloca,
}

#[derive(Clone, Copy, Debug, PartialEq, Eq)]
pub enum Listed {
    NativeIntegerWidths,
    NonIntegralAddressSpaces,
}

// The Rust's fields; spaces and widths are u64.
#[derive(Drop)]
pub struct DataLayout {
    pub endianness: Endian,
    pub natural_stack_alignment: Option<Align>,
    pub program_address_space: u64,
    pub global_variable_address_space: u64,
    pub alloca_address_space: u64,
    pub type_alignments: TypeAlignSpecs,
    pub pointer_alignments: PointerAlignSpecs,
    pub aggregate_alignment: Align,
    pub function_pointer_alignment: Option<FunctionPointerAlign>,
    pub mangling: Option<Mangling>,
    pub native_integer_widths: Numbers,
    pub non_integral_address_spaces: Numbers,
}
