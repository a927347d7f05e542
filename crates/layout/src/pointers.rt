// Pointer rows: `PointerAlignSpec` and `PointerAlignSpecs` of align.rs.
ghost use Rattle.std.specs.Prelude.{◌≡◌};
ghost use Rattle.layout.specs.Pointers.{same_space, updated_pointers};

use crate::rows::{Row, put};
use units::align::Align;

// Sizes are in bits.
#[derive(Clone, Copy, PartialEq, Eq)]
pub struct PointerAlignSpec {
    pub address_space: u64,
    pub pointer_size: u64,
    pub abi_alignment: Align,
    pub preferred_alignment: Align,
    pub index_size: u64,
}

// "32 pointer rows".
pub const MAX_POINTER_ROWS: usize = 32;

// The rows are the first `count`.
// Kept: what may not change: the definitions answer for any count, also one above the room, and no `ArrayVec` has one.
#[derive(Clone, Copy)]
pub struct PointerAlignSpecs {
    pub rows: [PointerAlignSpec; MAX_POINTER_ROWS],
    pub count: usize,
}

impl Row for PointerAlignSpec {
    ghost same = { same_space };

    fn is_same(self, row: PointerAlignSpec) -> bool {
        self.address_space == row.address_space
    }
}

impl PointerAlignSpecs {
    // "A new row replaces the one with the same .. space in its place, else is appended." There is no answer where the rows are full.
    pub fn update(mut self, spec: PointerAlignSpec) -> Option<PointerAlignSpecs>
        ensures { result ≡ updated_pointers self spec }
    {
        let count = self.count;
        self.count = put(&mut self.rows, count, spec)?;
        Some(self)
    }
}
