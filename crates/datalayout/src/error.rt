// Why a layout string is refused, and the paper's number, place and detail of each case.
ghost use Rattle.std.specs.Prelude.{◌≡◌};
ghost use Rattle.datalayout.specs.Answers.{number_of, refusal_of};

use fields::numbers::Fault;
use units::refusal::Refusal;

// `BadEncoding` has the offset of the first byte that is not ASCII, `Refused` that of the spec.
#[derive(Clone, Copy, PartialEq, Eq)]
pub enum Error {
    BadEncoding(usize),
    Refused(Fault, usize),
}

// Kept: the C interface: these numbers are what C is told, and two faults have 27, so that no cast gives them.
fn fault_number(fault: Fault) -> u64
    ensures { result ≡ number_of fault }
{
    match fault {
        Fault::EmptySpec => 22,
        Fault::UnknownSpec => 23,
        Fault::BadInt => 24,
        Fault::BadAlign => 25,
        Fault::BadAddressSpace => 26,
        Fault::BadSpecParse => 27,
        Fault::BadPointerAbi => 27,
        Fault::BadTypeWidth => 28,
        Fault::AbiAlignTooLarge => 29,
        Fault::AlignPref => 30,
        Fault::ListFull => 31,
    }
}

impl From<Error> for Refusal {
    ghost from_gives = { λ error refusal. refusal ≡ refusal_of error };

    fn from(error: Error) -> Refusal {
        let (number, place) = match error {
            Error::BadEncoding(at) => (21, at),
            Error::Refused(fault, at) => (fault_number(fault), at),
        };
        Refusal {
            number,
            place: place as u64,
            // 2026-05 gives 24, and 27 for a pointer's ABI, a detail.
            detail: 0,
        }
    }
}
