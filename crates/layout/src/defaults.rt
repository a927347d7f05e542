// "Defaults (LangRef)": the layout before any spec, and with every refusal.
ghost use Rattle.std.specs.Prelude.{◌≡◌};
ghost use Rattle.layout.specs.Defaults.{type_row, pointer_row, default_types, default_pointers, default_layout};

use crate::numbers::Numbers;
use crate::pointers::{MAX_POINTER_ROWS, PointerAlignSpec, PointerAlignSpecs};
use crate::record::{DataLayout, Endian};
use crate::types::{AlignedType, MAX_TYPE_ROWS, TypeAlignSpec, TypeAlignSpecs};
use units::align::Align;

// The shifts of `ALIGN8` to `ALIGN128`.
const ALIGN8: u8 = 0;

const ALIGN16: u8 = 1;

const ALIGN32: u8 = 2;

const ALIGN64: u8 = 3;

const ALIGN128: u8 = 4;

fn type_row(aligned_type: AlignedType, width: u64, abi: u8, preferred: u8) -> TypeAlignSpec
    ensures { result ≡ type_row aligned_type width (record { 0 = abi }) (record { 0 = preferred }) }
{
    TypeAlignSpec {
        aligned_type,
        width,
        abi_alignment: Align(abi),
        preferred_alignment: Align(preferred),
    }
}

fn pointer_row(size: u64, shift: u8) -> PointerAlignSpec
    ensures { result ≡ pointer_row 0 size (record { 0 = shift }) (record { 0 = shift }) size }
{
    PointerAlignSpec {
        address_space: 0,
        pointer_size: size,
        abi_alignment: Align(shift),
        preferred_alignment: Align(shift),
        index_size: size,
    }
}

fn default_types() -> TypeAlignSpecs
    ensures { result ≡ default_types }
{
    let unused = type_row(AlignedType::Integer, 0, ALIGN8, ALIGN8);
    let mut rows = [unused; MAX_TYPE_ROWS];
    rows[0] = type_row(AlignedType::Integer, 1, ALIGN8, ALIGN8);
    rows[1] = type_row(AlignedType::Integer, 8, ALIGN8, ALIGN8);
    rows[2] = type_row(AlignedType::Integer, 16, ALIGN16, ALIGN16);
    rows[3] = type_row(AlignedType::Integer, 32, ALIGN32, ALIGN32);
    rows[4] = type_row(AlignedType::Integer, 64, ALIGN32, ALIGN64);
    rows[5] = type_row(AlignedType::Float, 16, ALIGN16, ALIGN16);
    rows[6] = type_row(AlignedType::Float, 32, ALIGN32, ALIGN32);
    rows[7] = type_row(AlignedType::Float, 64, ALIGN64, ALIGN64);
    rows[8] = type_row(AlignedType::Float, 128, ALIGN128, ALIGN128);
    rows[9] = type_row(AlignedType::Vector, 64, ALIGN64, ALIGN64);
    rows[10] = type_row(AlignedType::Vector, 128, ALIGN128, ALIGN128);
    rows[11] = type_row(AlignedType::Aggregate, 0, ALIGN8, ALIGN64);
    TypeAlignSpecs { rows, count: 12 }
}

fn default_pointers() -> PointerAlignSpecs
    ensures { result ≡ default_pointers }
{
    let unused = pointer_row(0, ALIGN8);
    let mut rows = [unused; MAX_POINTER_ROWS];
    rows[0] = pointer_row(64, ALIGN64);
    PointerAlignSpecs { rows, count: 1 }
}

pub fn default_layout() -> DataLayout
    ensures { result ≡ default_layout }
{
    let types = default_types();
    let pointers = default_pointers();
    let widths = Numbers::none();
    let spaces = Numbers::none();
    DataLayout {
        endianness: Endian::Big,
        natural_stack_alignment: None,
        program_address_space: 0,
        global_variable_address_space: 0,
        alloca_address_space: 0,
        type_alignments: types,
        pointer_alignments: pointers,
        aggregate_alignment: Align(ALIGN8),
        function_pointer_alignment: None,
        mangling: None,
        native_integer_widths: widths,
        non_integral_address_spaces: spaces,
    }
}
