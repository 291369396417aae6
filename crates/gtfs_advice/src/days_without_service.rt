//! Days without service.
ghost use Rattle.std.specs.Prelude.{◌≡◌, ◌++◌, ◌≤ℤ◌, IfOk, IfSome, OnOk};
ghost use Rattle.gtfs_days.specs.Service.{first_service_day};
ghost use Rattle.gtfs_rows.specs.RowsInMemory.{IsSoundParts, content_of_parts};
ghost use Rattle.gtfs_advice.specs.Advice.{Tells, end_advice, gap_advice};
ghost use Rattle.gtfs_advice.specs.ServedDays.{AreAllKnown, end_said, gaps_said, last_of};
ghost use Rattle.gtfs_advice.specs.Services.{is_day_served};

use crate::advice::{Advice, Subject};
use crate::code::Code;
use crate::served_days::ServedDays;
use crate::services::with_trips;
use crate::waiting_services::all_days;
use gtfs_days::FIRST_SERVICE_DAY;
use gtfs_feed::Feed;
use gtfs_field::{Day, OutOfMemory};
use gtfs_rows::Parts;
use std::alloc::Global;

// Tells on which days two weeks or more without service begin and, if a day is given, whether
// fewer than seven days with service are left from it on.
pub(crate) fn tell_days(
    alloc: Global,
    feed: &Feed,
    day: Option<Day>,
    told: &mut Vec<Advice>,
) -> Result<(), OutOfMemory>
    ensures { let c = content_of_parts feed.now in OnOk result
        (Tells feed.now (gap_advice c ++ end_advice c day) told.old.items told.new.items) }
{
    let days = served_days(alloc, feed.parts())?;
    tell_gaps(&days, told)?;
    tell_end(&days, day, told)
}

// The days on which a service that some trip with a stop time has runs.
fn served_days(alloc: Global, parts: &Parts) -> Result<ServedDays, OutOfMemory>
    requires { IsSoundParts parts.now }
    ensures { IfOk result (AreAllKnown (is_day_served (content_of_parts parts.now))) }
{
    let used = with_trips(alloc, parts, true)?;
    all_days(alloc, parts.services.as_slice(), &used)
}

fn tell_gaps(days: &ServedDays, told: &mut Vec<Advice>) -> Result<(), OutOfMemory>
    ensures { OnOk result (told.new.items ≡ told.old.items ++ gaps_said days.now) }
{
    for day in &days.gaps {
        told.push(Advice {
            code: Code::GapInService,
            subject: Subject::Day(*day),
        })?;
    }
    Ok(())
}

fn tell_end(days: &ServedDays, day: Option<Day>, told: &mut Vec<Advice>) -> Result<(), OutOfMemory>
    ensures told { OnOk result (told.new.items ≡ told.old.items ++ end_said days.now day) }
    ensures low { IfSome day (λ d. first_service_day ≤ℤ d) }
{
    let Some(day) = day else {
        return Ok(());
    };
    if days.until.number() <= day.number() + 6 {
        told.push(Advice {
            code: Code::EndOfService,
            subject: last_of(days),
        })?;
    }
    Ok(())
}

// The last day with service.
fn last_of(days: &ServedDays) -> Subject
    ensures { result ≡ last_of days.now }
{
    let number = days.until.number();
    if number > FIRST_SERVICE_DAY {
        Subject::Day(Day::from_number(number - 1))
    } else {
        Subject::Nothing
    }
}
