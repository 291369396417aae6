//! Services without trips.
ghost use Rattle.std.specs.Prelude.{◌≡◌, ◌<◌, ◌∷◌, [], ◌&&◌, ◌==◌, false, filter, not, IfOk, OnOk, length};
ghost use Rattle.gtfs_rows.specs.Content.{Content};
ghost use Rattle.gtfs_rows.specs.RowsInMemory.{IsSoundParts, content_of_parts, service_of};
ghost use Rattle.gtfs_advice.specs.Advice.{Tells, advice_on, calendar_advice, date_advice};
ghost use Rattle.gtfs_advice.specs.Services.{has_no_trip};
ghost use Rattle.gtfs_advice.specs.UsedServices.{AreServiceMarks, stands_under};

use crate::advice::{Advice, Subject, tell};
use crate::code::Code;
use gtfs_feed::Feed;
use gtfs_field::OutOfMemory;
use gtfs_rows::{Parts, ServiceNo, ServiceRow, StopRow};
use std::alloc::Global;

// Tells which services have a row in calendar.txt and no trip.
pub(crate) fn tell_calendar(
    alloc: Global,
    feed: &Feed,
    told: &mut Vec<Advice>,
) -> Result<(), OutOfMemory>
    ensures { OnOk result (Tells feed.now (calendar_advice (content_of_parts feed.now))
        told.old.items told.new.items) }
{
    tell_unused(alloc, feed.parts(), Code::ServiceWithoutTrip, true, told)
}

// Tells which services have rows in calendar_dates.txt alone, and no trip.
pub(crate) fn tell_dates(
    alloc: Global,
    feed: &Feed,
    told: &mut Vec<Advice>,
) -> Result<(), OutOfMemory>
    ensures { OnOk result (Tells feed.now (date_advice (content_of_parts feed.now))
        told.old.items told.new.items) }
{
    tell_unused(alloc, feed.parts(), Code::DatesWithoutTrip, false, told)
}

// Tells which services under calendar.txt, or under calendar_dates.txt, have no trip.
fn tell_unused(
    alloc: Global,
    parts: &Parts,
    code: Code,
    in_calendar: bool,
    told: &mut Vec<Advice>,
) -> Result<(), OutOfMemory>
    requires { IsSoundParts parts.now }
    ensures { let c = content_of_parts parts.now in OnOk result (Tells parts.now
        (advice_on (λ s. s.service_id) ((code, has_no_trip c) ∷ [])
        (filter (stands_under in_calendar) c.services))
        told.old.items told.new.items) }
{
    let marks = with_trips(alloc, parts, false)?;
    tell_each(parts, &marks, code, in_calendar, told)
}

// Of each service, by its number, whether a trip is of it, and one with a stop time where only
// these count.
pub(crate) fn with_trips(
    alloc: Global,
    parts: &Parts,
    with_calls: bool,
) -> Result<Vec<bool>, OutOfMemory>
    requires { IsSoundParts parts.now }
    ensures { IfOk result (λ marks. AreServiceMarks parts.now with_calls marks.items) }
{
    let mut marks = vec![in alloc; false; parts.services.len()]?;
    for (number, trip) in parts.trips.as_slice().iter().enumerate() {
        if counts(parts.stop_times.of_trip(number), with_calls) {
            marks[trip.service_id.0] = true;
        }
    }
    Ok(marks)
}

// Whether a trip with these stop times counts.
fn counts(stop_times: &[StopRow], with_calls: bool) -> bool
    ensures { result ≡ not (with_calls && (length stop_times.now == 0)) }
{
    !(with_calls && stop_times.is_empty())
}

// Tells of each service under calendar.txt, or under calendar_dates.txt, that no trip is of it,
// where its mark says so.
fn tell_each(
    parts: &Parts,
    marks: &[bool],
    code: Code,
    in_calendar: bool,
    told: &mut Vec<Advice>,
) -> Result<(), OutOfMemory>
    requires sound { IsSoundParts parts.now }
    requires marks { AreServiceMarks parts.now false marks.now }
    ensures { let c = content_of_parts parts.now in OnOk result (Tells parts.now
        (advice_on (λ s. s.service_id)
        ((code, λ s. stands_under in_calendar s && has_no_trip c s) ∷ []) c.services)
        told.old.items told.new.items) }
{
    for (number, row) in parts.services.as_slice().iter().enumerate() {
        let holds = lacks_trip(row, in_calendar, marks[number]);
        tell(told, &Subject::Service(ServiceNo(number)), &[(code, holds)])?;
    }
    Ok(())
}

// Whether a service stands under calendar.txt, or else under calendar_dates.txt, and no trip is of
// it.
fn lacks_trip(row: &ServiceRow, in_calendar: bool, has_trip: bool) -> bool
    ensures { result ≡ (stands_under in_calendar (service_of row.now) && not has_trip) }
{
    row.service.week().is_some() == in_calendar && !has_trip
}
