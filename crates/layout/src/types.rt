// Type rows: `TypeAlignSpec` and `TypeAlignSpecs` of align.rs.
ghost use Rattle.std.specs.Prelude.{◌≡◌};
ghost use Rattle.layout.specs.Types.{rank_of, same_type, updated_types};

use crate::rows::{Row, put};
use units::align::Align;

// The width stands beside the kind, and is 0 for an aggregate.
#[derive(Clone, Copy, Debug, PartialEq, Eq)]
pub enum AlignedType {
    Integer,
    Vector,
    Float,
    Aggregate,
}

#[derive(Clone, Copy, PartialEq, Eq)]
pub struct TypeAlignSpec {
    pub aligned_type: AlignedType,
    pub width: u64,
    pub abi_alignment: Align,
    pub preferred_alignment: Align,
}

// "At most 64 type rows".
pub const MAX_TYPE_ROWS: usize = 64;

// The rows are the first `count`.
// Kept: what may not change: the definitions answer for any count, also one above the room, and no `ArrayVec` has one.
#[derive(Clone, Copy)]
pub struct TypeAlignSpecs {
    pub rows: [TypeAlignSpec; MAX_TYPE_ROWS],
    pub count: usize,
}

impl AlignedType {
    pub fn rank(self) -> u64
        ensures { result ≡ rank_of self }
    {
        self as u64
    }
}

impl Row for TypeAlignSpec {
    ghost same = { same_type };

    fn is_same(self, row: TypeAlignSpec) -> bool {
        self.aligned_type == row.aligned_type && self.width == row.width
    }
}

impl TypeAlignSpecs {
    // "A new row replaces the one with the same kind and width in its place, else is appended." 2026-09 keeps them ascending. There
    // is no answer where the rows are full.
    pub fn update(mut self, spec: TypeAlignSpec) -> Option<TypeAlignSpecs>
        ensures { result ≡ updated_types self spec }
    {
        let count = self.count;
        self.count = put(&mut self.rows, count, spec)?;
        Some(self)
    }
}
