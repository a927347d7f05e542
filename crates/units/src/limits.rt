// The limits of widths and address spaces (01, "Allowed kinds" and "Layout string").
ghost use Rattle.std.specs.Prelude.{◌≡◌};
ghost use Rattle.units.specs.Limits.{is_integer_width, is_address_space, is_type_width};

// "Integer width: 1 to 16,777,215": `IntegerType` of ty.rs.
pub const MIN_INT_BITS: u64 = 1;

pub const MAX_INT_BITS: u64 = 16_777_215;

// The largest number of 23 bits, which limits two things.
const MAX_23_BITS: u64 = 8_388_607;

// "Address space: at most 8,388,607": `AddressSpace::MAX`.
pub const MAX_ADDRESS_SPACE: u64 = MAX_23_BITS;

// "type width not in 1 to 8,388,607": `AlignedTypeWidth::MAX`.
pub const MIN_TYPE_WIDTH: u64 = 1;

pub const MAX_TYPE_WIDTH: u64 = MAX_23_BITS;

// Kept: three named questions, each one match with its own sentence's range; one with the ends as parameters is no plainer.
// The Rust's `IntegerType::try_from`.
pub fn is_integer_width(width: u64) -> bool
    ensures { result ≡ is_integer_width width }
{
    matches!(width, MIN_INT_BITS..=MAX_INT_BITS)
}

// The Rust's `AddressSpace::try_from`, over u64: a number above 32 bits is refused and not cut.
pub fn is_address_space(space: u64) -> bool
    ensures { result ≡ is_address_space space }
{
    matches!(space, 0..=MAX_ADDRESS_SPACE)
}

// The Rust's `AlignedTypeWidth::try_from`.
pub fn is_type_width(width: u64) -> bool
    ensures { result ≡ is_type_width width }
{
    matches!(width, MIN_TYPE_WIDTH..=MAX_TYPE_WIDTH)
}
