// "Standard input holds little-endian words; over 65,536 bytes or not a multiple of 8 counts as 1, 0, 0" (01, "Program").
ghost use Rattle.std.specs.Prelude.{◌≡◌, length};
ghost use Rattle.table.specs.Buffers.{over};
ghost use Rattle.wire.specs.Words.{is_stream, words_in};

pub const INPUT_BYTES: usize = 65_536;

const WORD_BYTES: usize = 8;

// Whether so many bytes are a stream of words.
pub fn is_stream(bytes: usize) -> bool
    ensures { result ≡ is_stream bytes }
{
    bytes <= INPUT_BYTES && bytes % WORD_BYTES == 0
}

// The words of the bytes, laid over the front of the buffer; bytes behind the last whole word are passed over.
pub fn put_stream(words: &mut [u64], bytes: &[u8])
    ensures { words.new ≡ over (words_in bytes.now) words.old }
{
    let (chunks, _) = bytes.as_chunks::<WORD_BYTES>();
    // Kept: a store at the index, since of a `zip` over `iter_mut` only the length is known after, and the goal `returns` stays open.
    for (i, chunk) in chunks.iter().enumerate() {
        if i == words.len() {
            break;
        }
        words[i] = u64::from_le_bytes(*chunk);
    }
}
