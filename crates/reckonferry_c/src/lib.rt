// The exports of the library to link: each is a call of the function of that name in `reckonferry` and promises what
// that promises. What each answers is said there.
// Kept: the C interface needs each function here too, as a static library exports those of its own crate alone.
#![tactic(auto)]

ghost use Rattle.std.specs.Prelude.{◌≡◌, length};
ghost use Rattle.table.specs.Buffers.{over};
ghost use Rattle.ferry.specs.Reader.{lent_by};
ghost use Rattle.checker.specs.Checked.{checked};
ghost use Rattle.lookup.specs.Names.{stretch_of, has_name, start_of, length_of};
ghost use Rattle.reckonferry.specs.Library.{answer_words, ReadsTable, ReadsLayout};

#[unsafe(no_mangle)]
pub extern "C" fn reckonferry_read_table(
    words: &[u64],
    rows: &mut [u64],
    refs: &mut [u64],
    names: &mut [u8],
    witness: &mut [u64],
    answer: &mut [u64],
)
    ensures { ReadsTable words.now
        (lent_by rows.old refs.old names.old witness.old)
        answer.old
        rows.new refs.new names.new witness.new answer.new }
{
    reckonferry::reckonferry_read_table(words, rows, refs, names, witness, answer)
}

#[unsafe(no_mangle)]
pub extern "C" fn reckonferry_check_table(
    rows: &[u64],
    refs: &[u64],
    names: &[u8],
    ranks: &[u64],
    count: usize,
) -> bool
    ensures { result ≡ checked rows.now refs.now names.now ranks.now
        count }
{
    reckonferry::reckonferry_check_table(rows, refs, names, ranks, count)
}

#[unsafe(no_mangle)]
pub extern "C" fn reckonferry_has_name(rows: &[u64], names: &[u8], entry: u64) -> bool
    ensures { result ≡ has_name rows.now (length names.now) entry }
{
    reckonferry::reckonferry_has_name(rows, names, entry)
}

#[unsafe(no_mangle)]
pub extern "C" fn reckonferry_name_start(rows: &[u64], names: &[u8], entry: u64) -> usize
    ensures { result ≡ start_of (stretch_of rows.now (length names.now) entry) }
{
    reckonferry::reckonferry_name_start(rows, names, entry)
}

#[unsafe(no_mangle)]
pub extern "C" fn reckonferry_name_len(rows: &[u64], names: &[u8], entry: u64) -> usize
    ensures { result ≡ length_of (stretch_of rows.now (length names.now) entry) }
{
    reckonferry::reckonferry_name_len(rows, names, entry)
}

#[unsafe(no_mangle)]
pub extern "C" fn reckonferry_read_layout(
    value: &[u8],
    answer: &mut [u64],
    layout: &mut [u64],
) -> usize
    ensures { ReadsLayout value.now answer.old layout.old
        result answer.new layout.new }
{
    reckonferry::reckonferry_read_layout(value, answer, layout)
}
