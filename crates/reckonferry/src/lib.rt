// The library to link: the reader, the checker, the name lookup and the layout reader under plain C names. Each
// function is a call of the proved one below it and promises what that promises; nothing is asked of a caller that
// C's types do not say. crates/reckonferry_c exports each under its name. include/reckonferry.h is made from this
// file by tools/header: the comment over an item is its comment there.
// Kept: reckonferry_name_start and _len are two functions, as C has them.
#![tactic(auto)]

ghost use Rattle.std.specs.Prelude.{◌≡◌, length};
ghost use Rattle.table.specs.Buffers.{over};
ghost use Rattle.ferry.specs.Reader.{lent_by};
ghost use Rattle.checker.specs.Checked.{checked};
ghost use Rattle.lookup.specs.Names.{stretch_of, has_name, start_of, length_of};
ghost use Rattle.reckonferry.specs.Library.{answer_words, layout_answer, ReadsTable, ReadsLayout};

use checker::check::check;
use datalayout::error::Error;
use ferry::Answer;
use ferry::read::read_table;
use flat::read::read_layout;
use lookup::{has_name, stretch_of};
use table::TypeRef;
use table::buffer::put_words;

// Words of a row: kind; number; flag; first reference place; reference count; name start; name length; 1 if named.
pub const ROW_WORDS: usize = table::row::ROW_WORDS;

// No table has more entries.
pub const MAX_ENTRIES: u64 = table::row::MAX_ENTRIES;

// Words of an answer: the refusal's number, its place and its detail.
pub const ANSWER_WORDS: usize = 3;

// No layout has more words.
pub const LAYOUT_WORDS: usize = flat::put::LAYOUT_WORDS;

fn put_answer(out: &mut [u64], a: Answer)
    ensures { out.new ≡ over (answer_words a) out.old }
{
    let words = match a {
        Ok(entries) => [0, entries, 0],
        Err(refusal) => [refusal.number, refusal.place, refusal.detail],
    };
    put_words(out, &words);
}

fn layout_answer(said: Result<(), Error>) -> Answer
    ensures { result ≡ layout_answer said }
{
    said?;
    Ok(0)
}

// Reads a type table from the words of a stream.
//
// Over the front of `answer`, as far as it reaches: 0, the number of entries and 0 where the table is accepted; else
// the number of the refusal, its place and its detail (docs/REFUSALS.md).
//
// Accepted: `rows` holds ROW_WORDS words for each entry, `refs` the references and `names` the bytes of the names,
// one behind the other in the order of the entries; `witness` holds a rank for each entry, below the rank of every
// entry that refers to it. The rest of each is 0. Refused: all four are 0, but that refusal 19 leaves its ring at
// the front of `witness`.
//
// What the four hold before is overwritten. Where one of them is too short for the table, that is refusal 9.
pub fn reckonferry_read_table(
    words: &[u64],
    rows: &mut [u64],
    refs: &mut [u64],
    names: &mut [u8],
    witness: &mut [u64],
    answer: &mut [u64],
)
    ensures { ReadsTable words.now
        (lent_by rows.old refs.old names.old witness.old)
        answer.old
        rows.new refs.new names.new witness.new answer.new }
{
    let a = read_table(words, rows, refs, names, witness);
    put_answer(answer, a);
}

// Whether `rows`, `refs` and `names` are a lawful table of `count` entries and `ranks` show that it has no cycle. It
// shares only the smallest parts with the reader and trusts nobody: not the reader, not the caller. What
// reckonferry_read_table accepts passes, with `witness` for the ranks.
pub fn reckonferry_check_table(
    rows: &[u64],
    refs: &[u64],
    names: &[u8],
    ranks: &[u64],
    count: usize,
) -> bool
    ensures { result ≡ checked rows.now refs.now names.now ranks.now
        count }
{
    check(rows, refs, names, ranks, count)
}

// Whether `entry` has a name: it is a whole row of `rows`, a struct, marked as named, and its stretch lies in
// `names`. A name may be empty.
pub fn reckonferry_has_name(rows: &[u64], names: &[u8], entry: u64) -> bool
    ensures { result ≡ has_name rows.now (length names.now) entry }
{
    has_name(rows, names, TypeRef(entry))
}

// Where in `names` the name of `entry` starts, or 0 where it has none.
pub fn reckonferry_name_start(rows: &[u64], names: &[u8], entry: u64) -> usize
    ensures { result ≡ start_of (stretch_of rows.now (length names.now) entry) }
{
    stretch_of(rows, names.len(), TypeRef(entry)).map_or(0, |stretch| stretch.start)
}

// How many bytes the name of `entry` has, or 0 where it has none. They lie in `names` from reckonferry_name_start
// on.
pub fn reckonferry_name_len(rows: &[u64], names: &[u8], entry: u64) -> usize
    ensures { result ≡ length_of (stretch_of rows.now (length names.now) entry) }
{
    stretch_of(rows, names.len(), TypeRef(entry)).map_or(0, |stretch| stretch.len())
}

// Reads a data layout string, of which no 0 byte at the end is part.
//
// Over the front of `answer`, as far as it reaches: 0, 0 and 0 where the string is taken; else the number of the
// refusal, its place and its detail (docs/REFUSALS.md).
//
// Over the front of `layout`, as far as it reaches, the words of the layout, or of the default one where the string
// is refused, and 0 behind them: 0 big or 1 little endian; stack alignment or 0; program, global and alloca spaces;
// aggregate alignment; function pointer alignment kind (0 none, 1 independent, 2 multiple) and its alignment or 0;
// mangling (0 none, else 1 to 6 for e m o x w a); the count of native widths and the widths; the count of
// non-integral spaces and the spaces; the count of type rows and for each its kind (0 integer, 1 vector, 2 float, 3
// aggregate), width, ABI and preferred alignment; the count of pointer rows and for each its space, size, ABI and
// preferred alignment, index size. Alignments are in bits.
//
// Returns how many words the layout has, at most LAYOUT_WORDS, also where fewer fit.
pub fn reckonferry_read_layout(value: &[u8], answer: &mut [u64], layout: &mut [u64]) -> usize
    ensures { ReadsLayout value.now answer.old layout.old
        result answer.new layout.new }
{
    let laid = read_layout(value, layout);
    put_answer(answer, layout_answer(laid.answer));
    laid.words
}
