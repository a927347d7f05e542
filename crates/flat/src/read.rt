// A layout string read straight into flat words. They stand in their order from the start, and each spec changes them in place, so
// that no record is copied. It answers what `from_str` answers, and leaves the words of the layout that `from_str` hands back.
ghost use Rattle.std.specs.Prelude.{◌≡◌, ◌≤◌, length};
ghost use Rattle.layout.specs.declared.record.DataLayout.{DataLayout};
ghost use Rattle.datalayout.specs.Apply.{applied};
ghost use Rattle.datalayout.specs.Promises.{Sound};
ghost use Rattle.datalayout.specs.Strings.{mapped};
ghost use Rattle.flat.specs.Puts.{max_words};
ghost use Rattle.flat.specs.Reads.{Reads};
ghost use Rattle.flat.specs.Held.{Held, Kept, Did, memory_at};

use crate::defaults::{refuse, start};
use crate::lists::{put_list, put_pointer, put_type, starts};
use crate::parts::{endian_word, function_bits, function_kind, mangling_word};
use crate::put::LAYOUT_WORDS;
use datalayout::error::Error;
use datalayout::map::{ascii_end, ascii_part_end};
use fields::numbers::Fault;
use layout::record::Memory;
use spec::spec::{Spec, read_spec};
use table::buffer::put_words;

// Kept: what may not change: "the layout returned with a refusal is the default one", so that it has words beside either answer.
// The answer, and how many words the layout has.
#[derive(Drop)]
pub struct Laid {
    pub answer: Result<(), Error>,
    pub words: usize,
}

fn memory_at(memory: Memory) -> usize
    ensures { result ≡ memory_at memory }
{
    memory as usize + 2
}

// Kept: this and `read_whole` go the way of `datalayout`'s over words, as the record by value misses the bar of speed (docs/DECISIONS.md).
fn apply(out: &mut [u64], read: Result<Spec, Fault>) -> Result<(), Fault>
    requires { Kept out.old }
    ensures { (l : DataLayout) → Sound l → Held l out.old → Did (applied l read) result out.new }
{
    match read {
        Ok(Spec::Endianness(endian)) => {
            out[0] = endian_word(endian);
            Ok(())
        }
        Ok(Spec::Stack(align)) => {
            out[1] = align.bit_align();
            Ok(())
        }
        Ok(Spec::Space(memory, space)) => {
            let at = memory_at(memory);
            out[at] = space;
            Ok(())
        }
        Ok(Spec::Typed(row)) => put_type(out, row),
        Ok(Spec::Pointer(row)) => put_pointer(out, row),
        Ok(Spec::FunctionPointer(align)) => {
            out[6] = function_kind(Some(align));
            out[7] = function_bits(Some(align));
            Ok(())
        }
        Ok(Spec::Mangled(mangling)) => {
            out[8] = mangling_word(Some(mangling));
            Ok(())
        }
        Ok(Spec::Numbered(listed, numbers)) => {
            put_list(out, listed, numbers);
            Ok(())
        }
        Err(fault) => Err(fault),
    }
}

// The Rust's `DataLayout::from_str`, in one sweep, into a buffer that has room for every layout.
fn read_whole(value: &[u8], out: &mut [u64]) -> Laid
    requires { max_words ≤ length out.old }
    ensures { Reads (mapped value.now) out.old result out.new }
{
    start(out);
    let mut at = 0;
    // Kept: an iterator over the specs is no plainer, since a refusal names a spec's offset and 21 is looked for in the same sweep.
    loop {
        let end = ascii_part_end(value, at, b'-');
        // Past the end there is no byte, and 0 is ASCII.
        let byte = value.get(end).copied().unwrap_or(0);
        if !byte.is_ascii() {
            return refuse(out, Error::BadEncoding(end));
        }
        if let Err(fault) = apply(out, read_spec(&value[at..end])) {
            // "21 first": the spec's refusal is kept back until the rest of the string is seen to be ASCII.
            let bad = ascii_end(value, end);
            if bad < value.len() {
                return refuse(out, Error::BadEncoding(bad));
            }
            return refuse(out, Error::Refused(fault, at));
        }
        if end == value.len() {
            return Laid {
                answer: Ok(()),
                words: starts(out).end,
            };
        }
        at = end + 1;
    }
}

// Over the front of the buffer, as far as it reaches, the words of the layout, and 0 behind them. A short buffer gets the front of a
// whole one.
pub fn read_layout(value: &[u8], out: &mut [u64]) -> Laid
    ensures { Reads (mapped value.now) out.old result out.new }
{
    if LAYOUT_WORDS <= out.len() {
        return read_whole(value, out);
    }
    let mut words = [0u64; LAYOUT_WORDS];
    let laid = read_whole(value, &mut words);
    put_words(out, &words);
    laid
}
