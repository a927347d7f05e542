// The number, place and detail of each refusal of the second pass, as document 01's table has them.
ghost use Rattle.std.specs.Prelude.{◌≡◌, Err};
ghost use Rattle.rules.specs.Lawful.{number_of};
ghost use Rattle.walk.specs.Answers.{number_in, detail_in, refused, paper_of};

use crate::{Error, Fault};
use rules::Place;
use units::refusal::Refusal;

// Kept: these are the numbers that C is told, and 15 and 16 stand against the order of `Place`, so that no cast gives them.
fn number_of(place: Place) -> u64
    ensures { result ≡ number_of place }
{
    match place {
        Place::Pointee => 13,
        Place::ArrayElement => 14,
        Place::VectorElement => 15,
        Place::StructElement => 16,
        Place::Return => 17,
        Place::Argument => 18,
    }
}

// The number and the detail of an entry's fault.
fn number_and_detail(fault: Fault) -> (u64, u64)
    ensures { (result.0 ≡ number_in fault) × (result.1 ≡ detail_in fault) }
{
    match fault {
        Fault::OutOfRange(to) => (11, to),
        Fault::Width(width) => (12, width),
        Fault::Referent(place, to) => (number_of(place), to),
    }
}

impl From<Error> for Refusal {
    ghost from_gives = { λ error r. paper_of (Err error) ≡ refused r.number r.place r.detail };

    fn from(error: Error) -> Refusal {
        let (number, place, detail) = match error {
            Error::Refused { entry, fault } => {
                let (number, detail) = number_and_detail(fault);
                (number, entry as u64, detail)
            }
            Error::Cycle { again, length } => (19, again as u64, length as u64),
        };
        Refusal {
            number,
            place,
            detail,
        }
    }
}
