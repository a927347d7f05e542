// "Program" (01): the bytes of standard input to the line of the answer.
ghost use Rattle.std.specs.Prelude.{◌≡◌, true, length, take};
ghost use Rattle.wire.specs.Lines.{line_of};
ghost use Rattle.ferry.specs.Program.{text_of, line_text, answer_to};
ghost use Rattle.wire.specs.Words.{is_stream};

use crate::Answer;
use crate::read::read_table;
use wire::line::{Line, ok_line, refused_line};
use wire::words::{is_stream, put_stream};

// 65,536 bytes are 8,192 words.
const INPUT_WORDS: usize = 8_192;

// "It lends 8,192 words for rows, 8,192 for references, 8,192 name bytes and 1,024 witness words."
const ROWS: usize = 8_192;

const REFERENCES: usize = 8_192;

const NAMES: usize = 8_192;

const WITNESS: usize = 1_024;

// Kept: `Display` is no plainer (wire, `ok_line`).
// The line of an answer.
pub fn line_of(a: Answer) -> Line
    ensures line { result ≡ line_of (line_text a) }
    ensures text { take result.len result.bytes ≡ line_text a }
{
    match a {
        Ok(entries) => ok_line(entries),
        Err(refusal) => refused_line(refusal.number, refusal.place, refusal.detail),
    }
}

fn answer_to(input: &[u8]) -> Answer
    requires { is_stream (length input.now) ≡ true }
    ensures { result ≡ answer_to input.now }
{
    let mut words = [0u64; INPUT_WORDS];
    let mut rows = [0u64; ROWS];
    let mut refs = [0u64; REFERENCES];
    let mut names = [0u8; NAMES];
    let mut witness = [0u64; WITNESS];
    put_stream(&mut words, input);
    let n = input.len() / 8;
    read_table(&words[..n], &mut rows, &mut refs, &mut names, &mut witness)
}

// "over 65,536 bytes or not a multiple of 8 counts as 1, 0, 0"
pub fn run(input: &[u8]) -> Line
    ensures line { result ≡ line_of (text_of input.now) }
    ensures text { take result.len result.bytes ≡ text_of input.now }
{
    if is_stream(input.len()) {
        line_of(answer_to(input))
    } else {
        refused_line(1, 0, 0)
    }
}
