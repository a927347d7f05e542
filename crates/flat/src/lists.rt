// The lists of a layout's words, changed in place: where each starts, a new row, a new list of numbers.
ghost use Rattle.std.specs.Prelude.{◌≡◌, ◌≤◌, min, length, get_or};
ghost use Rattle.layout.specs.declared.record.DataLayout.{DataLayout};
ghost use Rattle.layout.specs.Record.{with_numbers};
ghost use Rattle.datalayout.specs.Apply.{type_applied, pointer_applied};
ghost use Rattle.datalayout.specs.Promises.{Sound};
ghost use Rattle.flat.specs.Held.{Held, Kept, Did, RowsIn, RowPut, starts_of};

use crate::moves::{find, replace};
use crate::parts::{POINTER_WORDS, TYPE_WORDS, Words};
use crate::put::put_numbers;
use fields::numbers::Fault;
use layout::numbers::{MAX_NUMBERS, Numbers};
use layout::pointers::{MAX_POINTER_ROWS, PointerAlignSpec};
use layout::record::Listed;
use layout::types::{MAX_TYPE_ROWS, TypeAlignSpec};

// Where the counts of the lists behind the widths stand, and where all ends.
#[derive(Drop)]
pub struct Bounds {
    pub spaces: usize,
    pub types: usize,
    pub pointers: usize,
    pub end: usize,
}

// The count of the widths stands behind the head.
const WIDTHS: usize = 9;

// A count that stands in the words, kept to its limit.
fn count_at(out: &[u64], at: usize, most: usize) -> usize
    ensures { result ≡ min (get_or out.now at 0) most }
{
    let count = out.get(at).copied().unwrap_or(0);
    count.min(most as u64) as usize
}

pub(crate) fn starts(out: &[u64]) -> Bounds
    ensures { (l : DataLayout) → Sound l → Held l out.now → result ≡ starts_of l }
{
    let spaces = WIDTHS + 1 + count_at(out, WIDTHS, MAX_NUMBERS);
    let types = spaces + 1 + count_at(out, spaces, MAX_NUMBERS);
    let pointers = types + 1 + count_at(out, types, MAX_TYPE_ROWS) * TYPE_WORDS;
    let end = pointers + 1 + count_at(out, pointers, MAX_POINTER_ROWS) * POINTER_WORDS;
    Bounds {
        spaces,
        types,
        pointers,
        end,
    }
}

// "A new row replaces the one with the same kind and width (or space) in its place, else is appended." The count of the rows stands
// at `from`, they end at `behind`, and the words at `end`.
fn put_row<const WIDE: usize>(
    out: &mut [u64],
    from: usize,
    behind: usize,
    end: usize,
    row: &[u64; WIDE],
    both: bool,
    most: usize,
) -> Result<(), Fault>
    requires rows { RowsIn out.old from behind end (length row.now) most }
    requires wide { 2 ≤ WIDE }
    ensures { RowPut out.old from behind end row.now both most result out.new }
{
    let start = from + 1;
    if let Some(i) = find(&out[start..behind], row, both) {
        let at = start + i * WIDE;
        replace(out, at, at + WIDE, end, row);
        return Ok(());
    }
    if most as u64 <= out[from] {
        return Err(Fault::ListFull);
    }
    out[from] += 1;
    replace(out, behind, behind, end, row);
    Ok(())
}

// Kept: `Kept out.old` is one word in four contracts; a struct round the lent words would be opened in each of the four.
pub(crate) fn put_type(out: &mut [u64], row: TypeAlignSpec) -> Result<(), Fault>
    requires { Kept out.old }
    ensures { (l : DataLayout) → Sound l → Held l out.old → Did (type_applied l row) result out.new }
{
    let words = row.words();
    let s = starts(out);
    put_row(out, s.types, s.pointers, s.end, &words, true, MAX_TYPE_ROWS)
}

// Kept: this and `put_type` are each one call of `put_row` with the numbers of their own list.
pub(crate) fn put_pointer(out: &mut [u64], row: PointerAlignSpec) -> Result<(), Fault>
    requires { Kept out.old }
    ensures { (l : DataLayout) → Sound l → Held l out.old → Did (pointer_applied l row) result out.new }
{
    let words = row.words();
    let s = starts(out);
    put_row(
        out,
        s.pointers,
        s.end,
        s.end,
        &words,
        false,
        MAX_POINTER_ROWS,
    )
}

// Kept: a buffer with a count, since `put_numbers` writes into any buffer and says how much.
pub(crate) fn put_list(out: &mut [u64], listed: Listed, numbers: Numbers)
    requires { Kept out.old }
    ensures { (l : DataLayout) → Sound l → Held l out.old → Held (with_numbers l listed numbers) out.new }
{
    let mut words = [0u64; 17];
    let count = put_numbers(&mut words, 0, numbers);
    let s = starts(out);
    match listed {
        Listed::NativeIntegerWidths => replace(out, WIDTHS, s.spaces, s.end, &words[..count]),
        Listed::NonIntegralAddressSpaces => replace(out, s.spaces, s.types, s.end, &words[..count]),
    }
}
