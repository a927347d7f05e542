// One spec: its letter, then the rest of it (`DataLayout::from_str` of datalayout.rs).
ghost use Rattle.std.specs.Prelude.{◌≡◌};
ghost use Rattle.std.specs.Result.{result_map_both};
ghost use Rattle.spec.specs.declared.spec.Spec.TheVariants.{FunctionPointer, Mangled};
ghost use Rattle.spec.specs.Specs.{function_letter, function_pointer_in, mangling_in, spec_in};
ghost use Rattle.spec.specs.Edition.{mangling_letter};

use crate::{list, pointer, typed};
use fields::numbers;
use fields::numbers::Fault;
use layout::numbers::Numbers;
use layout::pointers::PointerAlignSpec;
use layout::record::{Endian, FunctionPointerAlign, Listed, Mangling, Memory};
use layout::types::{AlignedType, TypeAlignSpec};
use units::align::Align;

// What a spec says.
#[derive(Drop)]
pub enum Spec {
    Endianness(Endian),
    Stack(Align),
    Space(Memory, u64),
    Typed(TypeAlignSpec),
    Pointer(PointerAlignSpec),
    FunctionPointer(FunctionPointerAlign),
    Mangled(Mangling),
    Numbered(Listed, Numbers),
}

#[tactic(auto, unfolding(crate::specs::Letters::chosen))]
fn function_letter(letter: u8, align: Align) -> Result<FunctionPointerAlign, Fault>
    ensures { result_map_both FunctionPointer (λ fault. fault) result ≡ function_letter letter align }
{
    match letter {
        b'i' => Ok(FunctionPointerAlign::Independent(align)),
        b'n' => Ok(FunctionPointerAlign::MultipleOfFunctionAlign(align)),
        _ => Err(Fault::BadSpecParse),
    }
}

// "`F`: empty 27; number 24, 25; only then the letter".
fn function_pointer(body: &[u8]) -> Result<FunctionPointerAlign, Fault>
    ensures { result_map_both FunctionPointer (λ fault. fault) result ≡ function_pointer_in body.now }
{
    match body {
        [] => Err(Fault::BadSpecParse),
        [letter, number @ ..] => function_letter(*letter, numbers::read_align(number)?),
    }
}

#[tactic(auto, unfolding(crate::specs::Letters::chosen))]
fn mangling_letter(letter: u8) -> Result<Mangling, Fault>
    ensures { result_map_both Mangled (λ fault. fault) result ≡ mangling_letter letter }
{
    match letter {
        b'e' => Ok(Mangling::Elf),
        b'm' => Ok(Mangling::Mips),
        b'o' => Ok(Mangling::Macho),
        b'x' => Ok(Mangling::WindowsX86Coff),
        b'w' => Ok(Mangling::WindowsCoff),
        b'a' => Ok(Mangling::XCoff),
        _ => Err(Fault::BadSpecParse),
    }
}

// "`m`: `:` and one of `e m o x w a`, else 27; the rest ignored".
fn mangling(body: &[u8]) -> Result<Mangling, Fault>
    ensures { result_map_both Mangled (λ fault. fault) result ≡ mangling_in body.now }
{
    match body {
        [b':', letter, ..] => mangling_letter(*letter),
        _ => Err(Fault::BadSpecParse),
    }
}

// "22 empty spec"; "`e`, `E`: the rest of the spec is ignored."
#[tactic(auto, unfolding(crate::specs::Letters::chosen, crate::specs::Specs::plain_in, crate::specs::Specs::spec_in))]
pub fn read_spec(spec: &[u8]) -> Result<Spec, Fault>
    ensures { result ≡ spec_in spec.now }
{
    let [letter, body @ ..] = spec else {
        return Err(Fault::EmptySpec);
    };
    match *letter {
        b'e' => Ok(Spec::Endianness(Endian::Little)),
        b'E' => Ok(Spec::Endianness(Endian::Big)),
        b'S' => Ok(Spec::Stack(numbers::read_align(body)?)),
        b'P' => Ok(Spec::Space(Memory::Program, numbers::read_space(body)?)),
        b'G' => Ok(Spec::Space(Memory::GlobalVariable, numbers::read_space(body)?)),
        b'A' => Ok(Spec::Space(Memory::Alloca, numbers::read_space(body)?)),
        b'p' => pointer::read_pointer(body).map(Spec::Pointer),
        b'i' => typed::read_type(AlignedType::Integer, body).map(Spec::Typed),
        b'v' => typed::read_type(AlignedType::Vector, body).map(Spec::Typed),
        b'f' => typed::read_type(AlignedType::Float, body).map(Spec::Typed),
        b'a' => typed::read_type(AlignedType::Aggregate, body).map(Spec::Typed),
        b'F' => Ok(Spec::FunctionPointer(function_pointer(body)?)),
        b'm' => Ok(Spec::Mangled(mangling(body)?)),
        b'n' => list::read_numbers(body),
        _ => Err(Fault::UnknownSpec),
    }
}
