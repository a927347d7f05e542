// Well-formed UTF-8, a byte to a word (the Unicode Standard, table 3-7). A word above 255 is in no row of that table.
#![tactic(auto)]

ghost use Rattle.std.specs.Prelude.{◌≡◌, true, List, ◌∷◌, ℕ, Some};
ghost use Rattle.utf8.specs.Utf8.{sequences, rest_of, pays, owing, is_utf8};

// The bytes that follow the first ones of a sequence.
const LOW: u64 = 0x80;

const HIGH: u64 = 0xbf;

// What a sequence still owes: how many bytes, and the range of the next of them.
#[derive(Clone, Copy, Debug, PartialEq, Eq)]
pub struct Owed {
    pub left: u64,
    pub low: u64,
    pub high: u64,
}

fn owes(left: u64, low: u64, high: u64) -> Option<Owed>
    ensures { result ≡ Some (record { left = left; low = low; high = high }) }
{
    Some(Owed { left, low, high })
}

// What a first byte owes; nothing can follow one that starts no sequence.
fn rest_of(byte: u64) -> Option<Owed>
    ensures { owing result ≡ rest_of sequences byte }
{
    match byte {
        0x00..=0x7f => owes(0, LOW, HIGH),
        0x80..=0xc1 => None,
        0xc2..=0xdf => owes(1, LOW, HIGH),
        0xe0 => owes(2, 0xa0, HIGH),
        0xe1..=0xec => owes(2, LOW, HIGH),
        0xed => owes(2, LOW, 0x9f),
        0xee..=0xef => owes(2, LOW, HIGH),
        0xf0 => owes(3, 0x90, HIGH),
        0xf1..=0xf3 => owes(3, LOW, HIGH),
        0xf4 => owes(3, LOW, 0x8f),
        0xf5.. => None,
    }
}

// What is owed behind one more byte, if it is one that is owed.
fn next(o: Owed, byte: u64) -> Option<Owed>
    ensures { (s : List ℕ) → pays (owing result) s ≡ pays (owing (Some o)) (byte ∷ s) }
{
    if o.left == 0 {
        return rest_of(byte);
    }
    if !(o.low..=o.high).contains(&byte) {
        return None;
    }
    owes(o.left - 1, LOW, HIGH)
}

// Whether every word is ASCII, which is well formed: most names are. The words are joined bit by bit and compared once, so that
// the loop is a short one.
fn is_ascii(text: &[u64]) -> bool
    ensures { result ≡ true → is_utf8 text.now ≡ true }
{
    text.iter().fold(0, |all, word| all | *word) < LOW
}

pub fn is_utf8(text: &[u64]) -> bool
    ensures { result ≡ is_utf8 text.now }
{
    if is_ascii(text) {
        return true;
    }
    let mut o = Owed {
        left: 0,
        low: LOW,
        high: HIGH,
    };
    for &byte in text {
        let Some(more) = next(o, byte) else {
            return false;
        };
        o = more;
    }
    o.left == 0
}
