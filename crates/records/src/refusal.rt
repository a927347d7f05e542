// The number, place and detail of each refusal of the first pass, as document 01's table has them.
ghost use Rattle.std.specs.Prelude.{◌≡◌, Err};
ghost use Rattle.shapes.specs.Answers.{number_of, detail_of};
ghost use Rattle.records.specs.Answers.{verdict_of};

use crate::Error;
use shapes::Fault;
use units::refusal::Refusal;

// The number and the detail of a record's fault.
fn number_and_detail(fault: Fault) -> (u64, u64)
    ensures { (result.0 ≡ number_of fault) × (result.1 ≡ detail_of fault) }
{
    match fault {
        Fault::LacksField => (2, 0),
        Fault::UnknownCode(code) => (3, code),
        Fault::OldFunction => (4, 0),
        Fault::BadName => (5, 0),
        Fault::NamelessOpaque => (6, 0),
        Fault::AlreadyFilled => (7, 0),
        Fault::SpaceTooLarge(space) => (8, space),
        Fault::NoRoom => (9, 0),
    }
}

impl From<Error> for Refusal {
    ghost from_gives = { λ error refusal. Err refusal ≡ verdict_of (Err error) };

    fn from(error: Error) -> Refusal {
        let (number, place, detail) = match error {
            Error::CutRecord(head) => (1, head, 0),
            Error::NoSingleCount => (2, 0, 0),
            Error::BadRecord(at, fault) => {
                let (number, detail) = number_and_detail(fault);
                (number, at, detail)
            }
            Error::CountDiffers(stated, got) => (10, stated, got),
        };
        Refusal {
            number,
            place,
            detail,
        }
    }
}
