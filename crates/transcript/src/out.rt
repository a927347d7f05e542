// An answer as it is put together, little-endian words one behind the other.
use arrayvec::ArrayVec;

// The longest answer: op, length, three words, and the four outputs whole.
const ANSWER_BYTES: usize = 589_864;

pub(crate) const WORD_BYTES: usize = 8;

// Op, length and body; the length is set when the body is whole.
#[derive(Drop)]
pub(crate) struct Answer {
    bytes: ArrayVec<u8, ANSWER_BYTES>,
}

impl Answer {
    pub(crate) fn new() -> Answer {
        Answer {
            bytes: ArrayVec::new(),
        }
    }

    // The head of another answer takes the place of this one.
    pub(crate) fn begin(&mut self, op: u64) {
        self.bytes.clear();
        self.put(op);
        self.put(0);
    }

    // There is room for the words of every answer.
    pub(crate) fn put(&mut self, word: u64) {
        let _fits = self.bytes.try_extend_from_slice(&word.to_le_bytes());
    }

    // "number (0: accepted), place (accepted: the entry count), detail"
    // Kept: the library lays the same three words over a lent buffer; a function of both for three words is no plainer.
    pub(crate) fn put_read(&mut self, read: ferry::Answer) {
        let words = match read {
            Ok(entries) => [0, entries, 0],
            Err(refusal) => [refusal.number, refusal.place, refusal.detail],
        };
        self.put_all(&words);
    }

    // "A byte (of a name, of a layout string) is one word, 0 to 255."
    pub(crate) fn put_all<T: Copy>(&mut self, items: &[T])
    where
        u64: From<T>,
    {
        for item in items {
            self.put(u64::from(*item));
        }
    }

    // The whole answer, its body as long as it is now.
    pub(crate) fn as_bytes(&mut self) -> &[u8] {
        let words = (self.bytes.len() / WORD_BYTES) as u64;
        let length = words.saturating_sub(2);
        if let Some(place) = self
            .bytes
            .as_mut_slice()
            .get_mut(WORD_BYTES..2 * WORD_BYTES)
        {
            place.copy_from_slice(&length.to_le_bytes());
        }
        self.bytes.as_slice()
    }
}
