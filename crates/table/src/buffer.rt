// What is written into a lent buffer: a run of words or bytes over the front of the rest that is handed in.
// "The unused remainder of the reference or name buffer, starting at its fill mark, is lent to the appender" (01, forms).
ghost use Rattle.std.specs.Prelude.{◌≡◌};
ghost use Rattle.table.specs.Buffers.{over, low_bytes};

pub fn put_words(rest: &mut [u64], src: &[u64])
    ensures { rest.new ≡ over src.now rest.old }
{
    let count = src.len().min(rest.len());
    // Kept: a store at the index, since a copy of a length found at run time asks the linker of the library for memmove.
    for (i, word) in src[..count].iter().enumerate() {
        rest[i] = *word;
    }
}

// The low byte of each word.
pub fn put_bytes(rest: &mut [u8], src: &[u64])
    ensures { rest.new ≡ over (low_bytes src.now) rest.old }
{
    let count = src.len().min(rest.len());
    // Kept: a store at the index, since of a `zip` over `iter_mut` only the length is known after, and the goal `returns` stays open.
    for (i, word) in src[..count].iter().enumerate() {
        rest[i] = (word % 256) as u8;
    }
}
