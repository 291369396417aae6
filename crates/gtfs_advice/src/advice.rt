ghost use Rattle.std.specs.Prelude.{◌≡◌, ◌++◌, OnOk};
ghost use Rattle.gtfs_advice.specs.Advice.{said};

use crate::code::Code;
use gtfs_field::{Day, OutOfMemory};
use gtfs_rows::{AgencyNo, RouteNo, ServiceNo, StopNo, TripNo};

/// What an advice is about: a row of the feed by its number, a day, or nothing.
#[derive(Clone, Copy, Debug, PartialEq, Eq)]
pub enum Subject {
    Agency(AgencyNo),
    Stop(StopNo),
    Route(RouteNo),
    Trip(TripNo),
    Service(ServiceNo),
    Day(Day),
    /// There is no such day: of the last day with service in a feed without any.
    Nothing,
}

/// What a reader of the feed would look at twice. It is no problem: the feed passes.
#[derive(Clone, Copy, Debug, PartialEq, Eq)]
pub struct Advice {
    pub code: Code,
    pub subject: Subject,
}

// Adds an advice about a subject for each of these rules that holds, in their order.
pub(crate) fn tell(
    told: &mut Vec<Advice>,
    subject: &Subject,
    answers: &[(Code, bool)],
) -> Result<(), OutOfMemory>
    ensures { OnOk result (told.new.items ≡ told.old.items ++ said subject.now answers.now) }
{
    for &(code, holds) in answers {
        if holds {
            told.push(Advice {
                code,
                subject: *subject,
            })?;
        }
    }
    Ok(())
}
