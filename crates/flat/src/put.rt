// The layout's words over the front of a lent buffer: part behind part. Where the buffer ends nothing more is written.
ghost use Rattle.std.specs.Prelude.{◌≤◌, ◌+◌, ◌*◌, ◌∷◌, length, take};
ghost use Rattle.flat.specs.Words.{numbers_words, run_of, layout_words};
ghost use Rattle.flat.specs.Puts.{Behind, Part, Puts, max_words};

use crate::parts::{HEAD_WORDS, Words, head_words};
use layout::numbers::{MAX_NUMBERS, Numbers};
use layout::record::DataLayout;
use table::buffer::put_words;

// No layout has more words: nine, 16 widths and 16 spaces with their counts, 64 type rows of four and 32 pointer rows of five with theirs.
pub const LAYOUT_WORDS: usize = 461;

// What does not fit behind the first `at` is not written.
pub(crate) fn put_behind(out: &mut [u64], at: usize, src: &[u64])
    ensures { Behind src.now at out.old out.new }
{
    if out.len() <= at {
        return;
    }
    put_words(&mut out[at..], src);
}

pub(crate) fn put_numbers(out: &mut [u64], at: usize, numbers: Numbers) -> usize
    requires { at ≤ max_words }
    ensures { Part (numbers_words numbers) 17 at out.old result out.new }
{
    let items = &numbers.items[..numbers.count.min(MAX_NUMBERS)];
    put_behind(out, at, &[items.len() as u64]);
    put_behind(out, at + 1, items);
    at + 1 + items.len()
}

// Rows of either kind: the first `count` of a room.
fn put_rows<R: Words<WIDE>, const WIDE: usize>(
    out: &mut [u64],
    at: usize,
    room: &[R],
    count: usize,
) -> usize
    requires place { at ≤ max_words }
    requires few { length room.now ≤ max_words }
    requires narrow { WIDE ≤ max_words }
    ensures { Part (length (take count room.now) ∷ run_of R.words_of (take count room.now)) (1 + length room.now * WIDE) at out.old result out.new }
{
    let rows = &room[..count.min(room.len())];
    put_behind(out, at, &[rows.len() as u64]);
    for (i, row) in rows.iter().enumerate() {
        put_behind(out, at + 1 + i * WIDE, &row.words());
    }
    at + 1 + rows.len() * WIDE
}

// Answers how many words the layout has, also where fewer fit.
pub fn put_layout(out: &mut [u64], layout: DataLayout) -> usize
    ensures { Puts (layout_words layout) out.old result out.new }
{
    let widths = layout.native_integer_widths;
    let spaces = layout.non_integral_address_spaces;
    let types = layout.type_alignments;
    let pointers = layout.pointer_alignments;
    put_behind(out, 0, &head_words(layout));
    let behind_widths = put_numbers(out, HEAD_WORDS, widths);
    let behind_spaces = put_numbers(out, behind_widths, spaces);
    let behind_types = put_rows(out, behind_spaces, &types.rows, types.count);
    put_rows(out, behind_types, &pointers.rows, pointers.count)
}
