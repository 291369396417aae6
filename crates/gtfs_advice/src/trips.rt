ghost use Rattle.std.specs.Prelude.{◌≡◌, ◌<◌, OnOk, Some, length, slice_get};
ghost use Rattle.gtfs_rows.specs.Rows.{Trip as ContentTrip};
ghost use Rattle.gtfs_rows.specs.RowsInMemory.{content_of_parts};
ghost use Rattle.gtfs_rows.specs.declared.parts.Parts.{Parts};
ghost use Rattle.gtfs_advice.specs.Advice.{Tells, answers_of, trip_advice, trip_rules};
ghost use Rattle.gtfs_advice.specs.TripCourses.{AreRepeats};
ghost use Rattle.gtfs_advice.specs.NumberedRows.{GoesAlong};
ghost use Rattle.gtfs_advice.specs.TextFaults.{is_garbled_if_given};
ghost use Rattle.gtfs_advice.specs.Trips.{is_same_as_another, lacks_headsign};

use crate::advice::{Advice, Subject, tell};
use crate::code::Code;
use crate::repeated_trips::repeated_trips;
use crate::text_faults::is_garbled;
use gtfs_feed::Feed;
use gtfs_field::OutOfMemory;
use gtfs_rows::{StopRow, Trip, TripNo};
use std::alloc::Global;

// Tells the advice on each trip.
pub(crate) fn tell_trips(
    alloc: Global,
    feed: &Feed,
    told: &mut Vec<Advice>,
) -> Result<(), OutOfMemory>
    ensures { OnOk result (Tells feed.now (trip_advice (content_of_parts feed.now))
        told.old.items told.new.items) }
{
    let repeats = repeated_trips(alloc, feed)?;
    tell_each(feed, &repeats, told)
}

// The same, where these mark the trips that are like an earlier one.
fn tell_each(feed: &Feed, repeats: &[bool], told: &mut Vec<Advice>) -> Result<(), OutOfMemory>
    requires { AreRepeats feed.now repeats.now }
    ensures { OnOk result (Tells feed.now (trip_advice (content_of_parts feed.now))
        told.old.items told.new.items) }
{
    feed.soundness();
    for number in 0..feed.trip_count() {
        let trip = TripNo(number);
        let answers = answers(feed, trip, repeats[number]);
        tell(told, &Subject::Trip(trip), &answers)?;
    }
    Ok(())
}

// Whether each rule holds of a trip.
fn answers(feed: &Feed, trip: TripNo, is_repeat: bool) -> [(Code, bool); 3]
    requires { trip.0 < length feed.now.trips }
    ensures { (t : ContentTrip) → slice_get (content_of_parts feed.now).trips trip.0 ≡ Some t
        → is_repeat ≡ is_same_as_another (content_of_parts feed.now) t
        → result ≡ answers_of (trip_rules (content_of_parts feed.now)) t }
{
    feed.soundness();
    let row = feed.trip_by_number(trip);
    [
        (
            Code::TripWithoutHeadsign,
            lacks_headsign(row, feed.trip_rows(trip)),
        ),
        (Code::TripAsAnother, is_repeat),
        (Code::GarbledTrip, has_garbled_headsign(row)),
    ]
}

// Whether neither the trip nor one of its stop times but the last says where it goes.
fn lacks_headsign(trip: &Trip, rows: &[StopRow]) -> bool
    ensures { (p : Parts) (t : ContentTrip) → GoesAlong p rows.now t
        → t.trip_headsign ≡ trip.now.trip_headsign → result ≡ lacks_headsign t }
{
    let Some((_, rows_before)) = rows.split_last() else {
        return false;
    };
    trip.trip_headsign.is_none()
        && rows_before
            .iter()
            .any(|row| row.stop_headsign.get().is_none())
}

fn has_garbled_headsign(trip: &Trip) -> bool
    ensures { result ≡ is_garbled_if_given trip.now.trip_headsign }
{
    match &trip.trip_headsign {
        Some(headsign) => is_garbled(headsign.as_str()),
        None => false,
    }
}
