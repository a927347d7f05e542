// "Integers follow Rust's `parse`: one optional `+`, one or more digits, no overflow" (01, "Layout string").
ghost use Rattle.std.specs.Prelude.{◌≡◌};
ghost use Rattle.units.specs.Decimal.{decimal, digits};

// "u32 for spaces and widths, u64 for sizes and alignments".
pub const U32_MOST: u64 = 4_294_967_295;

pub const U64_MOST: u64 = 18_446_744_073_709_551_615;

const PLUS: u8 = b'+';

const ZERO: u8 = b'0';

const NINE: u8 = b'9';

// One or more digits of a number that is at most `most`.
fn read_digits(s: &[u8], most: u64) -> Option<u64>
    ensures { result ≡ digits most s.now }
{
    if s.is_empty() {
        return None;
    }
    let mut value: u64 = 0;
    for &b in s {
        let digit = match b {
            ZERO..=NINE => u64::from(b - ZERO),
            _ => return None,
        };
        value = value.checked_mul(10)?.checked_add(digit)?;
        if most < value {
            return None;
        }
    }
    Some(value)
}

// The part of a string that is handed in, as a number that is at most `MOST`: the Rust's `parse::<u32>` and `parse::<u64>`. 2026-05
// gives a `None` the offset of the byte that spoils the number: the place in `read_digits` that answers it.
pub fn parse<const MOST: u64>(s: &[u8]) -> Option<u64>
    ensures { result ≡ decimal MOST s.now }
{
    read_digits(s.strip_prefix(&[PLUS]).unwrap_or(s), MOST)
}
