// "Non-ASCII anywhere: 21 first, place its first such byte. Split at `-`; specs in order; later ones override."
ghost use Rattle.std.specs.Prelude.{◌≡◌, ◌==◌, ◌||◌, not, ◌+◌, min, drop, position};
ghost use Rattle.std.specs.Char.{is_ascii};
ghost use Rattle.fields.specs.Parts.{end_of};
ghost use Rattle.datalayout.specs.Strings.{ascii_up_to, handed, mapped};

use crate::apply::apply;
use crate::error::Error;
use layout::defaults::default_layout;
use layout::record::DataLayout;
use spec::spec::read_spec;

// The answer, and the layout: the default one where the string is refused.
// Kept: what may not change: "the layout returned with a refusal is the default one", so that there is a layout beside either.
#[derive(Drop)]
pub struct Mapped {
    pub answer: Result<(), Error>,
    pub layout: DataLayout,
}

// No ASCII byte, so that a search for it stops at any that is none.
const NOT_ASCII: u8 = 128;

// Where the first byte stands that is the separator or is not ASCII.
fn stop(bytes: &[u8], separator: u8) -> Option<usize>
    ensures { result ≡ position (λ byte. byte == separator || not (is_ascii byte)) bytes.now }
{
    bytes
        .iter()
        .position(|byte| *byte == separator || !byte.is_ascii())
}

// One search for both: where the part that starts at `from` ends, at `separator` or at the end of the string, or where a byte
// that is not ASCII stands before that.
pub fn ascii_part_end(value: &[u8], from: usize, separator: u8) -> usize
    ensures { result ≡ min (end_of separator value.now from)
        (from + ascii_up_to (drop from value.now)) }
{
    let rest = &value[from.min(value.len())..];
    from + stop(rest, separator).unwrap_or(rest.len())
}

// The offset of the first byte from `from` on that is not ASCII, or the length.
pub fn ascii_end(value: &[u8], from: usize) -> usize
    ensures { result ≡ from + ascii_up_to (drop from value.now) }
{
    ascii_part_end(value, from, NOT_ASCII)
}

// The specs in order, in one sweep. A trailing dash has an empty spec behind it.
fn apply_specs(value: &[u8]) -> Result<DataLayout, Error>
    ensures { handed result ≡ mapped value.now }
{
    let mut layout = default_layout();
    let mut at = 0;
    // Kept: an iterator over the specs is no plainer, since a refusal names a spec's offset and 21 is looked for in the same sweep.
    loop {
        let end = ascii_part_end(value, at, b'-');
        // Past the end there is no byte, and 0 is ASCII.
        let byte = value.get(end).copied().unwrap_or(0);
        if !byte.is_ascii() {
            return Err(Error::BadEncoding(end));
        }
        let applied = apply(layout, read_spec(&value[at..end]));
        if let Err(fault) = applied.outcome {
            // "21 first": the spec's refusal is kept back until the rest of the string is seen to be ASCII.
            let bad = ascii_end(value, end);
            if bad < value.len() {
                return Err(Error::BadEncoding(bad));
            }
            return Err(Error::Refused(fault, at));
        }
        layout = applied.layout;
        if end == value.len() {
            return Ok(layout);
        }
        at = end + 1;
    }
}

// A data layout string: the Rust's `DataLayout::from_str`. "The layout returned with a refusal is the default one."
pub fn from_str(value: &[u8]) -> Mapped
    ensures { result ≡ mapped value.now }
{
    match apply_specs(value) {
        Ok(layout) => Mapped {
            answer: Ok(()),
            layout,
        },
        Err(error) => Mapped {
            answer: Err(error),
            layout: default_layout(),
        },
    }
}
