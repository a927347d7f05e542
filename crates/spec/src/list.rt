// "`ni`" and "`n`": a list of address spaces or of widths.
ghost use Rattle.std.specs.Prelude.{◌≡◌};
ghost use Rattle.layout.specs.Numbers.{no_numbers};
ghost use Rattle.fields.specs.Parts.{colon, parts_of};
ghost use Rattle.spec.specs.Lists.{number_in, numbers_from, numbers_in};

use crate::spec::Spec;
use fields::numbers::Fault;
use fields::{numbers, parts};
use layout::numbers::{MAX_NUMBERS, Numbers};
use layout::record::Listed;

fn read_number(listed: Listed, part: &[u8]) -> Result<u64, Fault>
    ensures { result ≡ number_in listed part.now }
{
    match listed {
        Listed::NativeIntegerWidths => numbers::read_native(part),
        Listed::NonIntegralAddressSpaces => numbers::read_non_integral(part),
    }
}

// "31 exactly if one more is needed, .. and a seventeenth part gives it unread." 2026-14 tests the widths at both ends.
#[tactic(auto, unfolding(crate::specs::Lists::numbers_from), using(crate::proofs::Laws::Lists::numbers_from_full))]
fn read_list(listed: Listed, body: &[u8]) -> Result<Spec, Fault>
    ensures { result ≡ numbers_from listed no_numbers (parts_of colon body.now) }
{
    let mut numbers = Numbers::none();
    let mut left = Some(body);
    while let Some(rest) = left {
        if MAX_NUMBERS <= numbers.count {
            return Err(Fault::ListFull);
        }
        let (part, behind) = parts::first_part(rest, b':');
        let number = read_number(listed, part)?;
        numbers = numbers.push(number);
        left = behind;
    }
    Ok(Spec::Numbered(listed, numbers))
}

// "`ni`: alone 27; one byte after it is skipped unseen"; "`n`: .. empty 27".
#[tactic(auto, unfolding(crate::specs::Lists::numbers_in))]
pub fn read_numbers(body: &[u8]) -> Result<Spec, Fault>
    ensures { result ≡ numbers_in body.now }
{
    match body {
        [] | [b'i'] => Err(Fault::BadSpecParse),
        [b'i', _, spaces @ ..] => read_list(Listed::NonIntegralAddressSpaces, spaces),
        _ => read_list(Listed::NativeIntegerWidths, body),
    }
}
