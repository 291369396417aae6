ghost use Rattle.std.specs.Prelude.{◌≡◌, ◌<◌, IfOk, OnOk, Some, length, map, slice_get};
ghost use Rattle.gtfs_advice.specs.Advice.{Tells, answers_of, stop_time_advice, stop_time_rules};
ghost use Rattle.gtfs_rows.specs.Rows.{Trip};
ghost use Rattle.gtfs_rows.specs.RowsInMemory.{content_of_parts, stop_row_of};
ghost use Rattle.gtfs_rows.specs.declared.parts.Parts.{Parts};
ghost use Rattle.gtfs_advice.specs.StopTimes.{stops_twice_in_a_row, has_six_stops_at_one_moment, is_at_one_moment, is_faster_than_a_train, has_closed_stop, is_longer_than_a_day};
ghost use Rattle.gtfs_advice.specs.NumberedRows.{are_too_fast, have_one_stop, GoesAlong, is_closed_row, latitude_of, latitude_there, of_two_rows};

use crate::advice::{Advice, Subject, tell};
use crate::code::Code;
use crate::reached_and_left::{first_left_at, last_reached_at};
use gtfs_feed::Feed;
use gtfs_field::{Coord, OutOfMemory};
use gtfs_rows::{DropOffType, PickupType, Stop, StopRow, TripNo};
use std::alloc::Global;

// Tells the advice on the stop times of each trip.
pub(crate) fn tell_stop_times(
    alloc: Global,
    feed: &Feed,
    told: &mut Vec<Advice>,
) -> Result<(), OutOfMemory>
    ensures { OnOk result (Tells feed.now (stop_time_advice (content_of_parts feed.now))
        told.old.items told.new.items) }
{
    let latitudes = latitudes(alloc, feed.parts().stops.as_slice())?;
    tell_each(feed, &latitudes, told)
}

// The latitude of each stop that has a place, by its number.
fn latitudes(alloc: Global, stops: &[Stop]) -> Result<Vec<Option<Coord>>, OutOfMemory>
    ensures { IfOk result (λ found. found.items ≡ map latitude_of stops.now) }
{
    Ok(stops.iter().map(|stop| latitude(stop)).collect(alloc)?)
}

fn latitude(stop: &Stop) -> Option<Coord>
    ensures { result ≡ latitude_of stop.now }
{
    stop.stop_lon.and(stop.stop_lat)
}

// The same, where these are the latitudes of all stops.
fn tell_each(
    feed: &Feed,
    latitudes: &[Option<Coord>],
    told: &mut Vec<Advice>,
) -> Result<(), OutOfMemory>
    requires { latitudes.now ≡ map latitude_of feed.now.stops }
    ensures { OnOk result (Tells feed.now (stop_time_advice (content_of_parts feed.now))
        told.old.items told.new.items) }
{
    feed.soundness();
    for number in 0..feed.trip_count() {
        let trip = TripNo(number);
        let answers = answers(feed, latitudes, trip);
        tell(told, &Subject::Trip(trip), &answers)?;
    }
    Ok(())
}

// Whether each rule holds of a trip.
fn answers(feed: &Feed, latitudes: &[Option<Coord>], trip: TripNo) -> [(Code, bool); 5]
    requires within { trip.0 < length feed.now.trips }
    requires latitudes { latitudes.now ≡ map latitude_of feed.now.stops }
    ensures { (t : Trip) → slice_get (content_of_parts feed.now).trips trip.0 ≡ Some t
        → result ≡ answers_of (stop_time_rules (content_of_parts feed.now)) t }
{
    feed.soundness();
    let rows = feed.trip_rows(trip);
    [
        (Code::StopTwiceInARow, stops_twice_in_a_row(rows)),
        (Code::SixStopsAtOneMoment, has_six_stops_at_one_moment(rows)),
        (
            Code::FasterThanATrain,
            is_faster_than_a_train(rows, latitudes),
        ),
        (Code::NobodyGetsOnOrOff, has_closed_stop(rows)),
        (Code::LongerThanADay, is_longer_than_a_day(rows)),
    ]
}

// Whether two rows that follow each other have one stop.
fn stops_twice_in_a_row(rows: &[StopRow]) -> bool
    ensures { (p : Parts) (t : Trip) → GoesAlong p rows.now t → result ≡ stops_twice_in_a_row t }
{
    rows.windows(2).any(|pair| have_one_stop(pair))
}

fn have_one_stop(pair: &[StopRow]) -> bool
    ensures { result ≡ of_two_rows have_one_stop pair.now }
{
    let [row, next, ..] = pair else {
        return false;
    };
    row.stop_id == next.stop_id
}

// Whether some six rows that follow each other all have a time, and the last one is reached when
// the first one is left.
fn has_six_stops_at_one_moment(rows: &[StopRow]) -> bool
    ensures { (p : Parts) (t : Trip) → GoesAlong p rows.now t
        → result ≡ has_six_stops_at_one_moment t }
{
    rows.windows(6).any(|six| is_at_one_moment(six))
}

fn is_at_one_moment(rows: &[StopRow]) -> bool
    ensures { (p : Parts) → result ≡ is_at_one_moment (map (stop_row_of p) rows.now) }
{
    let (Some(left), Some(reached)) = (first_left_at(rows), last_reached_at(rows)) else {
        return false;
    };
    left == reached && rows.iter().all(|row| row.is_timed())
}

// Whether a row lies farther from the next one than 500 km/h allow, with a minute more.
fn is_faster_than_a_train(rows: &[StopRow], latitudes: &[Option<Coord>]) -> bool
    ensures { (p : Parts) (t : Trip) → GoesAlong p rows.now t
        → latitudes.now ≡ map latitude_of p.stops
        → result ≡ is_faster_than_a_train (content_of_parts p) t }
{
    rows.windows(2).any(|pair| are_too_fast(latitudes, pair))
}

fn are_too_fast(latitudes: &[Option<Coord>], pair: &[StopRow]) -> bool
    ensures { result ≡ of_two_rows (are_too_fast latitudes.now) pair.now }
{
    let [row, next, ..] = pair else {
        return false;
    };
    let (Some(from), Some(to)) = (latitude_at(latitudes, row), latitude_at(latitudes, next)) else {
        return false;
    };
    let (Some(left), Some(reached)) = (row.departs(), next.arrives()) else {
        return false;
    };
    let seconds = reached.seconds().saturating_sub(left.seconds()) + 60;
    1_250_000 * u64::from(seconds) < from.nanodegrees().abs_diff(to.nanodegrees())
}

// The latitude at a row, where these are those of all stops.
fn latitude_at(latitudes: &[Option<Coord>], row: &StopRow) -> Option<Coord>
    ensures { result ≡ latitude_there latitudes.now row.now }
{
    latitudes.get(row.stop_id.0).copied().unwrap_or(None)
}

// Whether there is a row at which riders may neither board nor leave.
fn has_closed_stop(rows: &[StopRow]) -> bool
    ensures { (p : Parts) (t : Trip) → GoesAlong p rows.now t
        → result ≡ has_closed_stop t }
{
    rows.iter().any(|row| is_closed(row))
}

fn is_closed(row: &StopRow) -> bool
    ensures { result ≡ is_closed_row row.now }
{
    row.pickup_type == PickupType::None && row.drop_off_type == DropOffType::None
}

// Whether more than a day passes from the first row to the last one.
fn is_longer_than_a_day(rows: &[StopRow]) -> bool
    ensures { (p : Parts) (t : Trip) → GoesAlong p rows.now t
        → result ≡ is_longer_than_a_day t }
{
    let (Some(from), Some(until)) = (first_left_at(rows), last_reached_at(rows)) else {
        return false;
    };
    from.seconds() + 86_400 < until.seconds()
}
