// Stretches of words in a lent buffer behind which all is 0: the search for a row, and words that give way to others.
ghost use Rattle.std.specs.Prelude.{◌≡◌, ◌+◌, ◌-◌, ◌/◌, ◌≤◌, length, position};
ghost use Rattle.std.specs.Simd.{first_chunks};
ghost use Rattle.flat.specs.Moves.{Shifts, Replaces, same_key};

use table::buffer::put_words;

// Which of the rows has the key of that one. Of pointer rows the first word is the key, of type rows the second too.
pub(crate) fn find<const WIDE: usize>(words: &[u64], row: &[u64; WIDE], both: bool) -> Option<usize>
    requires { 2 ≤ WIDE }
    ensures { result ≡ position (same_key both row.now) (first_chunks WIDE (length words.now / WIDE) words.now) }
{
    let (rows, _) = words.as_chunks::<WIDE>();
    rows.iter().position(
        |other| -> bool
            requires { 2 ≤ WIDE }
            ensures { result ≡ same_key both row.entry.now other.now }
        { row[0] == other[0] && (!both || row[1] == other[1]) },
    )
}

// The words from `from` to `end` start at `to` then, and zeros stand behind them.
fn shift(out: &mut [u64], from: usize, end: usize, to: usize)
    requires { (from ≤ end) × (end ≤ length out.old) × (to + (end - from) ≤ length out.old) }
    ensures { Shifts from end to out.old out.new }
{
    if from == to {
        return;
    }
    out.copy_within(from..end, to);
    let freed = to + (end - from);
    if freed < end {
        out[freed..end].fill(0);
    }
}

// The words from `at` to `behind` give way to others; those up to `end` stand behind these then, and zeros behind them.
pub(crate) fn replace(out: &mut [u64], at: usize, behind: usize, end: usize, src: &[u64])
    requires { (at ≤ behind) × (behind ≤ end) × (end ≤ length out.old) × (at + length src.now + (end - behind) ≤ length out.old) }
    ensures { Replaces src.now at behind end out.old out.new }
{
    shift(out, behind, end, at + src.len());
    put_words(&mut out[at..], src);
}
