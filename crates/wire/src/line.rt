// "It writes one line: `table ok N` or `table refused R P D`, decimal, newline after" (01, "Program").
ghost use Rattle.std.specs.Prelude.{◌≡◌, ◌++◌, ◌+◌, ◌≤◌, length, take};
ghost use Rattle.wire.specs.Lines.{decimal_text, line_of, ok_text, refused_text};

use arrayvec::ArrayString;
use itoa::Buffer;

// The longest line, of three numbers of 64 bits, has 77 bytes.
pub const LINE_BYTES: usize = 80;

// A line's bytes, with zeros behind them, and how many they are.
// Kept: no `ArrayString`, since no clause says what lies behind its text, and so a second answer would fit.
#[derive(Clone, Copy, Debug, PartialEq, Eq)]
pub struct Line {
    pub bytes: [u8; LINE_BYTES],
    pub len: usize,
}

// A line as it is put together.
type Text = ArrayString<LINE_BYTES>;

impl Line {
    // The line without the zeros behind it.
    pub fn as_bytes(&self) -> &[u8]
        ensures { result.now ≡ take self.now.len self.now.bytes }
    {
        &self.bytes[..self.len.min(LINE_BYTES)]
    }
}

// The line of a text; as the text has room, it stands there whole.
#[tactic(auto, using(crate::proofs::Laws::Lines::line_of_laid))]
fn line_of(text: &Text) -> Line
    ensures line { result ≡ line_of text.now.bytes }
    ensures text { take result.len result.bytes ≡ text.now.bytes }
{
    let len = text.len();
    let mut bytes = [0; LINE_BYTES];
    bytes[..len].copy_from_slice(text.as_bytes());
    Line { bytes, len }
}

// The decimal digits of n, at most 20, and the text behind them.
#[tactic(auto, using(crate::proofs::Laws::Lines::decimal_text_is))]
fn push_number(line: &mut Text, n: u64, behind: &str)
    requires { length line.old.bytes + 20 + length behind.now ≤ 80 }
    ensures text { line.new.bytes ≡ line.old.bytes ++ decimal_text n ++ behind.now }
    ensures short { length line.new.bytes ≤ length line.old.bytes + 20 + length behind.now }
{
    line.push_str(Buffer::new().format(n));
    line.push_str(behind);
}

// Kept: this and `refused_line` are two texts of the format over one `push_number`; `Display` is no plainer, since no clause says what
// a formatter is told, and `itoa` and the string's own methods have such clauses.
// `table ok N`
pub fn ok_line(entries: u64) -> Line
    ensures line { result ≡ line_of (ok_text entries) }
    ensures text { take result.len result.bytes ≡ ok_text entries }
{
    let mut line = Text::new();
    line.push_str("table ok ");
    push_number(&mut line, entries, "\n");
    line_of(&line)
}

// `table refused R P D`
pub fn refused_line(number: u64, place: u64, detail: u64) -> Line
    ensures line { result ≡ line_of (refused_text number place detail) }
    ensures text { take result.len result.bytes ≡ refused_text number place detail }
{
    let mut line = Text::new();
    line.push_str("table refused ");
    push_number(&mut line, number, " ");
    push_number(&mut line, place, " ");
    push_number(&mut line, detail, "\n");
    line_of(&line)
}
