// "An alignment in bits is 8 times a power of two; 0 is refused" (01, "Layout string"): align.rs, `Align`.
ghost use Rattle.std.specs.Prelude.{◌≡◌};
ghost use Rattle.units.specs.Align.{alignment, from_shift, size_of, bits_in_byte};

// An alignment as the power of two of its bytes. No function trusts it: a shift that no word holds has size 0.
#[derive(Clone, Copy, PartialEq, Eq, PartialOrd, Ord)]
pub struct Align(pub u8);

// 8 bits in a byte, 2 to the third.
const BITS_IN_BYTE: u64 = 8;

const BITS_SHIFT: u8 = 3;

impl Align {
    pub const MAX_SHIFT: u8 = 63;

    pub fn from_shift(shift: u8) -> Option<Align>
        ensures { result ≡ from_shift shift }
    {
        (shift <= Align::MAX_SHIFT).then_some(Align(shift))
    }

    // The power of two that `byte_align` is, looked for bit by bit. 2026-03 uses the machine's counts.
    pub fn from_byte_align(byte_align: u64) -> Option<Align>
        ensures { result ≡ alignment 1 byte_align }
    {
        (0..Align::MAX_SHIFT + 1)
            .find(|&shift| byte_align == 1 << shift)
            .map(Align)
    }

    pub fn from_bit_align(bit_align: u64) -> Option<Align>
        ensures { result ≡ alignment bits_in_byte bit_align }
    {
        if bit_align % BITS_IN_BYTE == 0 {
            Align::from_byte_align(bit_align / BITS_IN_BYTE)
        } else {
            None
        }
    }

    pub fn shift(self) -> u8
        ensures { result ≡ self.0 }
    {
        self.0
    }

    // Kept: this and `bit_align` are the Rust's two names, each one shift; one function of the unit is no plainer.
    // The bytes, or 0 where a word does not hold them: a shift above 63, which `from_shift` refuses.
    pub fn byte_align(self) -> u64
        ensures { result ≡ size_of 1 self.0 }
    {
        let shift = self.shift();
        if shift <= Align::MAX_SHIFT {
            1 << shift
        } else {
            0
        }
    }

    // The bits, or 0 where a word does not hold them: a shift above 60, at which the Rust overflows (DIFFERENCES, 1).
    pub fn bit_align(self) -> u64
        ensures { result ≡ size_of bits_in_byte self.0 }
    {
        let shift = self.shift();
        if shift <= Align::MAX_SHIFT - BITS_SHIFT {
            BITS_IN_BYTE << shift
        } else {
            0
        }
    }
}
