// Layout strings, one a line on standard input: for each, `layout ok` and the layout's words, or `layout refused R P D`.
// The words are those of a transcript's layout: endianness, stack, three spaces, aggregate field, function pointers, mangling,
// widths, non-integral spaces, type rows, pointer rows; alignments in bits.
#![tactic(auto)]

use flat::put::LAYOUT_WORDS;
use inout::read_full;
use std::io::{self, Input, Write};
use units::refusal::Refusal;

// So many bytes of the input are read.
const SPACE: usize = 65_536;

fn write_answer<W: Write>(writer: &mut W, value: &[u8]) -> io::Result<()> {
    let mapped = datalayout::map::from_str(value);
    if let Err(error) = mapped.answer {
        let refusal = Refusal::from(error);
        return writeln!(
            writer,
            "layout refused {} {} {}",
            refusal.number, refusal.place, refusal.detail
        );
    }
    let mut words = [0u64; LAYOUT_WORDS];
    let count = flat::put::put_layout(&mut words, mapped.layout);
    write!(writer, "layout ok")?;
    for word in words.iter().take(count) {
        write!(writer, " {word}")?;
    }
    writeln!(writer)
}

// A last line needs no newline.
fn write_answers<W: Write>(writer: &mut W, input: &[u8]) -> io::Result<()> {
    for line in input.split_inclusive(|b| *b == b'\n') {
        write_answer(writer, line.strip_suffix(b"\n").unwrap_or(line))?;
    }
    Ok(())
}

fn main(rt: HostRuntime) -> io::Result<()> {
    let mut space = [0u8; SPACE];
    let got = read_full(&mut rt.reader(), &mut space)?;
    write_answers(&mut io::writer(&rt), &space[..got])
}
