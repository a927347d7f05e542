// The numbers of a spec: a part that is handed in, read and tested.
ghost use Rattle.std.specs.Prelude.{◌≡◌};
ghost use Rattle.units.specs.Decimal.{decimal};
ghost use Rattle.fields.specs.Fields.{integer, size_in, space_in, pointer_space_in, type_width_in, no_width_in};
ghost use Rattle.fields.specs.Fields.{width_in, native_in, non_integral_in, align_as, align_in};

use layout::types::AlignedType;
use units::align::Align;
use units::decimal::{U32_MOST, U64_MOST};
use units::{decimal, limits};

// Why a spec is refused: the Rust's errors. Refusals 22 to 31 (specs/Answers.antt of `datalayout` has their numbers).
#[derive(Clone, Copy, PartialEq, Eq)]
pub enum Fault {
    EmptySpec,
    UnknownSpec,
    BadInt,
    BadAlign,
    BadAddressSpace,
    BadSpecParse,
    // A pointer's ABI that is no integer: the Rust's `Parse`. 2026-05 gives it a detail that `BadSpecParse` has not.
    BadPointerAbi,
    BadTypeWidth,
    AbiAlignTooLarge,
    AlignPref,
    ListFull,
}

// "24 bad integer".
fn read_integer<const MOST: u64>(part: &[u8]) -> Result<u64, Fault>
    ensures { result ≡ integer (decimal MOST part.now) }
{
    decimal::parse::<MOST>(part).ok_or(Fault::BadInt)
}

// Kept: this question and `read_native` are one call of `read_integer` each, and each bears the limit of its own sentence of 01; no plainer as one.
// "u64 for sizes and alignments".
pub fn read_size(part: &[u8]) -> Result<u64, Fault>
    ensures { result ≡ size_in part.now }
{
    read_integer::<U64_MOST>(part)
}

// Kept: this and `read_type_width` are each one question and one fault of their own sentence; one with both as parameters is no plainer.
pub fn read_space(part: &[u8]) -> Result<u64, Fault>
    ensures { result ≡ space_in part.now }
{
    let space = read_integer::<U32_MOST>(part)?;
    if limits::is_address_space(space) {
        Ok(space)
    } else {
        Err(Fault::BadAddressSpace)
    }
}

// "space if present".
pub fn read_pointer_space(part: &[u8]) -> Result<u64, Fault>
    ensures { result ≡ pointer_space_in part.now }
{
    if part.is_empty() {
        return Ok(0);
    }
    read_space(part)
}

fn read_type_width(part: &[u8]) -> Result<u64, Fault>
    ensures { result ≡ type_width_in part.now }
{
    let width = read_integer::<U32_MOST>(part)?;
    if limits::is_type_width(width) {
        Ok(width)
    } else {
        Err(Fault::BadTypeWidth)
    }
}

// "`a` has none, kept as 0: anything there is 27".
fn read_no_width(part: &[u8]) -> Result<u64, Fault>
    ensures { result ≡ no_width_in part.now }
{
    if part.is_empty() {
        Ok(0)
    } else {
        Err(Fault::BadSpecParse)
    }
}

pub fn read_width(aligned_type: AlignedType, part: &[u8]) -> Result<u64, Fault>
    ensures { result ≡ width_in aligned_type part.now }
{
    match aligned_type {
        AlignedType::Integer | AlignedType::Vector | AlignedType::Float => read_type_width(part),
        AlignedType::Aggregate => read_no_width(part),
    }
}

// "`n`: u32 parts, 24".
pub fn read_native(part: &[u8]) -> Result<u64, Fault>
    ensures { result ≡ native_in part.now }
{
    read_integer::<U32_MOST>(part)
}

// "each part 24, 26, then 27 for space 0".
pub fn read_non_integral(part: &[u8]) -> Result<u64, Fault>
    ensures { result ≡ non_integral_in part.now }
{
    let space = read_space(part)?;
    if space == 0 {
        Err(Fault::BadSpecParse)
    } else {
        Ok(space)
    }
}

// "An alignment in bits is 8 times a power of two; 0 is refused."
pub fn align_as(bits: u64) -> Result<Align, Fault>
    ensures { result ≡ align_as bits }
{
    Align::from_bit_align(bits).ok_or(Fault::BadAlign)
}

pub fn read_align(part: &[u8]) -> Result<Align, Fault>
    ensures { result ≡ align_in part.now }
{
    align_as(read_size(part)?)
}
