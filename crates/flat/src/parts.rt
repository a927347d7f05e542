// The words of the layout's single values and of its rows (specs/Words).
ghost use Rattle.std.specs.Prelude.{◌≡◌, List, ℕ, length, refl};
ghost use Rattle.flat.specs.Words.{endian_word, stack_word, function_kind, function_bits, mangling_word};
ghost use Rattle.flat.specs.Words.{type_words, pointer_words, head_words};

use layout::pointers::PointerAlignSpec;
use layout::record::{DataLayout, Endian, FunctionPointerAlign, Mangling};
use layout::types::TypeAlignSpec;
use units::align::Align;

pub(crate) const HEAD_WORDS: usize = 9;

pub(crate) const TYPE_WORDS: usize = 4;

pub(crate) const POINTER_WORDS: usize = 5;

pub(crate) fn endian_word(e: Endian) -> u64
    ensures { result ≡ endian_word e }
{
    e as u64
}

fn stack_word(a: Option<Align>) -> u64
    ensures { result ≡ stack_word a }
{
    a.map_or(0, |align| align.bit_align())
}

// Kept: two words of one value, which C is told apart; a `From` for each would want a type for each.
pub(crate) fn function_kind(f: Option<FunctionPointerAlign>) -> u64
    ensures { result ≡ function_kind f }
{
    match f {
        None => 0,
        Some(FunctionPointerAlign::Independent(_)) => 1,
        Some(FunctionPointerAlign::MultipleOfFunctionAlign(_)) => 2,
    }
}

pub(crate) fn function_bits(f: Option<FunctionPointerAlign>) -> u64
    ensures { result ≡ function_bits f }
{
    match f {
        None => 0,
        Some(
            FunctionPointerAlign::Independent(align)
            | FunctionPointerAlign::MultipleOfFunctionAlign(align),
        ) => align.bit_align(),
    }
}

pub(crate) fn mangling_word(m: Option<Mangling>) -> u64
    ensures { result ≡ mangling_word m }
{
    m.map_or(0, |mangling| mangling as u64 + 1)
}

// A row, as its words.
pub(crate) trait Words<const WIDE: usize>: Copy {
    ghost words_of: { Self → List ℕ };

    fn words(self) -> [u64; WIDE]
        ensures { result ≡ words_of self };

    ghost wide: { (row : Self) → length (words_of row) ≡ WIDE };
}

impl Words<TYPE_WORDS> for TypeAlignSpec {
    ghost words_of = { type_words };

    ghost wide = { λ row. refl };

    fn words(self) -> [u64; TYPE_WORDS] {
        [
            self.aligned_type.rank(),
            self.width,
            self.abi_alignment.bit_align(),
            self.preferred_alignment.bit_align(),
        ]
    }
}

impl Words<POINTER_WORDS> for PointerAlignSpec {
    ghost words_of = { pointer_words };

    ghost wide = { λ row. refl };

    fn words(self) -> [u64; POINTER_WORDS] {
        [
            self.address_space,
            self.pointer_size,
            self.abi_alignment.bit_align(),
            self.preferred_alignment.bit_align(),
            self.index_size,
        ]
    }
}

// The words before the first count.
pub(crate) fn head_words(layout: DataLayout) -> [u64; HEAD_WORDS]
    ensures { result ≡ head_words layout }
{
    [
        endian_word(layout.endianness),
        stack_word(layout.natural_stack_alignment),
        layout.program_address_space,
        layout.global_variable_address_space,
        layout.alloca_address_space,
        layout.aggregate_alignment.bit_align(),
        function_kind(layout.function_pointer_alignment),
        function_bits(layout.function_pointer_alignment),
        mangling_word(layout.mangling),
    ]
}
