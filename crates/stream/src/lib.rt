// A type stream as records: what stands at a place; whether every record is whole, and what the NumEntry records state.
#![tactic(auto)]

ghost use Rattle.std.specs.Prelude.{◌≡◌, List, ◌++◌, ◌-◌, ℕ, length};
ghost use Rattle.std.specs.Iterator.{YieldsFirstBy, at_most};
ghost use Rattle.stream.specs.Stream.{Finds, records_of, read_of, left};
ghost use Rattle.stream.specs.Count.{num_entry_in, stated_by, survey_of};

use kinds::code::TypeCode;

// A record: its code and its fields.
#[derive(Clone, Copy)]
pub struct Record<'a> {
    pub code: u64,
    pub fields: &'a [u64],
}

// The stream ends inside a record: the word index of its head.
#[derive(Clone, Copy, PartialEq, Eq, Debug)]
pub struct Cut {
    pub head: usize,
}

// No single count is stated: by more than one NumEntry, or by an empty one.
#[derive(Clone, Copy, PartialEq, Eq, Debug)]
pub struct Faulty;

// What is seen of a whole stream before any record is judged: whether every record is whole, and the count that is stated, if any.
#[derive(Clone, Copy, PartialEq, Eq, Debug)]
pub struct Survey {
    pub frame: Result<(), Cut>,
    pub stated: Result<Option<u64>, Faulty>,
}

// The field count is compared with the words that are left, so that a huge one does not wrap.
// Kept: parts of `words` itself in place of `get`, of whose answer only the contents are known, and not where it lies.
pub fn record_at(words: &[u64], at: usize) -> Option<Result<Record<'_>, Cut>>
    ensures { Finds words.now words.entry.ref_ptr at result }
{
    if words.len() <= at {
        return None;
    }
    let [code, count, rest @ ..] = &words[at..] else {
        return Some(Err(Cut { head: at }));
    };
    let count = *count as usize;
    if rest.len() < count {
        return Some(Err(Cut { head: at }));
    }
    let start = at + 2;
    Some(Ok(Record {
        code: *code,
        fields: &words[start..start + count],
    }))
}

// The records of a stream in order; the last may be one that is cut.
#[derive(Clone, Drop)]
pub struct Records<'a> {
    words: &'a [u64],
    at: usize,
}

impl<'a> Records<'a> {
    pub fn new(words: &'a [u64]) -> Records<'a>
        ensures { left result ≡ records_of words.now }
    {
        Records { words, at: 0 }
    }
}

impl<'a> Iterator for Records<'a> {
    type Item = Result<Record<'a>, Cut>;

    ghost next_gives = { YieldsFirstBy read_of left };

    ghost remaining = { λ s. at_most (length s.words.now - s.at) };

    fn next(&mut self) -> Option<Result<Record<'a>, Cut>> {
        let record = record_at(self.words, self.at)?;
        match record {
            Ok(whole) => self.at += 2 + whole.fields.len(),
            Err(_) => self.at = self.words.len(),
        }
        Some(record)
    }
}

// What is stated once one more record was seen.
fn count_in(
    before: Result<Option<u64>, Faulty>,
    code: u64,
    fields: &[u64],
) -> Result<Option<u64>, Faulty>
    ensures { (seen : List (List ℕ)) → before ≡ stated_by seen
        → result ≡ stated_by (seen ++ num_entry_in code fields.now) }
{
    let Ok(TypeCode::NumEntry) = TypeCode::try_from(code) else {
        return before;
    };
    if before?.is_some() {
        return Err(Faulty);
    }
    let count = fields.first().ok_or(Faulty)?;
    Ok(Some(*count))
}

// One sweep over the heads of the records.
pub fn survey_of(words: &[u64]) -> Survey
    ensures { result ≡ survey_of words.now }
{
    let mut stated = Ok(None);
    for record in Records::new(words) {
        match record {
            Ok(record) => stated = count_in(stated, record.code, record.fields),
            Err(cut) => {
                return Survey {
                    frame: Err(cut),
                    stated,
                };
            }
        }
    }
    Survey {
        frame: Ok(()),
        stated,
    }
}
