// The payload of a case, read from standard input.
use crate::out::WORD_BYTES;
use inout::read_full;
use std::io::{self, ErrorKind, Read};
use wire::words::put_stream;

// "Limits: a payload of 65,536 words".
pub(crate) const PAYLOAD_WORDS: usize = 65_536;

pub(crate) const PAYLOAD_BYTES: usize = 524_288;

// Fills the buffer with the next bytes of the input; an input that ends before it is full is an error of its own kind.
pub(crate) fn fill<R: Read>(reader: &mut R, buf: &mut [u8]) -> io::Result<()> {
    if read_full(reader, buf)? < buf.len() {
        return Err(ErrorKind::UnexpectedEof.into());
    }
    Ok(())
}

// As bytes and as words.
#[derive(Drop)]
pub(crate) struct Payload {
    pub(crate) bytes: [u8; PAYLOAD_BYTES],
    pub(crate) words: [u64; PAYLOAD_WORDS],
}

impl Payload {
    // The next words of the input, so many; None for more than the limit, which are passed over.
    pub(crate) fn read<R: Read>(
        &mut self,
        reader: &mut R,
        count: u64,
    ) -> io::Result<Option<&[u64]>> {
        if (PAYLOAD_WORDS as u64) < count {
            self.pass_over(reader, count)?;
            return Ok(None);
        }
        let count = count as usize;
        let Payload { bytes, words } = self;
        let bytes = &mut bytes[..count * WORD_BYTES];
        fill(reader, bytes)?;
        put_stream(words, bytes);
        Ok(Some(&words[..count]))
    }

    fn pass_over<R: Read>(&mut self, reader: &mut R, count: u64) -> io::Result<()> {
        for _ in 0..count / PAYLOAD_WORDS as u64 {
            fill(reader, &mut self.bytes)?;
        }
        let left = (count % PAYLOAD_WORDS as u64) as usize;
        fill(reader, &mut self.bytes[..left * WORD_BYTES])
    }
}
