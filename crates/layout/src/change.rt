// "The layout record is consumed by each spec's method and handed back with one changed field" (01, "The form each place takes").
ghost use Rattle.std.specs.Prelude.{◌≡◌};
ghost use Rattle.layout.specs.Record.{with_endianness, with_stack, with_space, with_types};
ghost use Rattle.layout.specs.Record.{with_pointers, with_function_pointer, with_mangling, with_numbers};

use crate::numbers::Numbers;
use crate::pointers::PointerAlignSpecs;
use crate::record::{DataLayout, Endian, FunctionPointerAlign, Listed, Mangling, Memory};
use crate::types::TypeAlignSpecs;
use units::align::Align;

// Kept: 01's form has a method for each spec; one with the field as a parameter is no plainer.
impl DataLayout {
    pub fn with_endianness(mut self, endianness: Endian) -> DataLayout
        ensures { result ≡ with_endianness self endianness }
    {
        self.endianness = endianness;
        self
    }

    pub fn with_stack(mut self, natural_stack_alignment: Option<Align>) -> DataLayout
        ensures { result ≡ with_stack self natural_stack_alignment }
    {
        self.natural_stack_alignment = natural_stack_alignment;
        self
    }

    pub fn with_function_pointer(
        mut self,
        function_pointer_alignment: Option<FunctionPointerAlign>,
    ) -> DataLayout
        ensures { result ≡ with_function_pointer self function_pointer_alignment }
    {
        self.function_pointer_alignment = function_pointer_alignment;
        self
    }

    pub fn with_mangling(mut self, mangling: Option<Mangling>) -> DataLayout
        ensures { result ≡ with_mangling self mangling }
    {
        self.mangling = mangling;
        self
    }

    pub fn with_space(mut self, memory: Memory, space: u64) -> DataLayout
        ensures { result ≡ with_space self memory space }
    {
        match memory {
            Memory::Program => self.program_address_space = space,
            Memory::GlobalVariable => self.global_variable_address_space = space,
            Memory::Alloca => self.alloca_address_space = space,
        }
        self
    }

    pub fn with_types(mut self, types: TypeAlignSpecs) -> DataLayout
        ensures { result ≡ with_types self types }
    {
        self.type_alignments = types;
        self
    }

    pub fn with_pointers(mut self, pointers: PointerAlignSpecs) -> DataLayout
        ensures { result ≡ with_pointers self pointers }
    {
        self.pointer_alignments = pointers;
        self
    }

    pub fn with_numbers(mut self, listed: Listed, numbers: Numbers) -> DataLayout
        ensures { result ≡ with_numbers self listed numbers }
    {
        match listed {
            Listed::NativeIntegerWidths => self.native_integer_widths = numbers,
            Listed::NonIntegralAddressSpaces => self.non_integral_address_spaces = numbers,
        }
        self
    }
}
