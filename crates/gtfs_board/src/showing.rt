//! What a board shows of a candidate.
ghost use Rattle.std.specs.Prelude.{◌≡◌, ◌<◌, ◌==◌, ◌&&◌, not, All, Some, [], IfSome, is_some, length, option_map, unwrap_or};
ghost use Rattle.std.specs.List.{list_any};
ghost use Rattle.std.specs.Option.{option_or};
ghost use Rattle.gtfs_rows.specs.Trips.{ArePeriods};
ghost use Rattle.gtfs_stop_times.specs.RowTimes.{left_at};
ghost use Rattle.gtfs_rows.specs.RowsInMemory.{frequency_of, stop_ids, text_of_number, trip_ids};
ghost use Rattle.gtfs_rows.specs.Runs.{starts_run};
ghost use Rattle.gtfs_board.specs.LentKeys.{listed, plain_key};
ghost use Rattle.gtfs_board.specs.ShownCandidates.{IsOfFeed, candidate_key, listed_in};

use crate::departure::{Departure, Mark};
use crate::key::Key;
use crate::upcoming::Candidate;
use gtfs_field::{Day, Text};
use gtfs_rows::{Frequency, Route, StopNo, StopRow, Trip, TripNo};
use gtfs_runs::Feed;

// The departure that a candidate stands for.
pub(crate) fn departure_of<'a>(feed: &'a Feed, candidate: &Candidate) -> Departure<'a>
    requires { IsOfFeed feed.now candidate.now }
    ensures listed { listed result ≡ listed_in feed.now candidate.now }
    ensures instant { result.key.instant ≡ candidate.now.instant }
{
    feed.soundness();
    let number = TripNo(candidate.trip);
    let trip = feed.trip_by_number(number);
    let row = &feed.trip_rows(number)[candidate.row];
    Departure {
        key: key_of(feed, candidate),
        stop: stop_id(feed, row.stop_id),
        route: name_of(feed.route_by_number(trip.route_id)),
        headsign: headsign_of(feed, trip, row),
        mark: Mark::new(
            has_inexact(feed.trip_frequencies(number), candidate.run),
            !row.is_timed(),
        ),
    }
}

// The key of a candidate.
fn key_of<'a>(feed: &'a Feed, candidate: &Candidate) -> Key<'a>
    requires { IsOfFeed feed.now candidate.now }
    ensures key { plain_key result ≡ candidate_key feed.now candidate.now }
    ensures instant { result.instant ≡ candidate.now.instant }
{
    Key {
        instant: candidate.instant,
        trip: trip_id(feed, TripNo(candidate.trip)),
        run: candidate.run,
        seq: candidate.sequence,
        day: Day::from_number(candidate.day),
    }
}

// The id of a trip.
pub(crate) fn trip_id(feed: &Feed, trip: TripNo) -> &str
    requires { trip.0 < length feed.now.trips }
    ensures { result.now ≡ text_of_number (trip_ids feed.now) trip.0 }
{
    feed.trip_by_number(trip).trip_id.as_str()
}

// The id of a stop.
pub(crate) fn stop_id(feed: &Feed, stop: StopNo) -> &str
    requires { stop.0 < length feed.now.stops }
    ensures { result.now ≡ text_of_number (stop_ids feed.now) stop.0 }
{
    feed.stop_by_number(stop).stop_id.as_str()
}

// The short name of a route, or where it has none the long one.
fn name_of(route: &Route) -> &str
    ensures { result.now
        ≡ unwrap_or (option_or route.now.route_short_name route.now.route_long_name) [] }
{
    match &route.route_short_name {
        Some(name) => name.as_str(),
        None => text_or_empty(&route.route_long_name),
    }
}

// The headsign of a stop time, or where it has none that of its trip.
fn headsign_of<'a>(feed: &'a Feed, trip: &'a Trip, row: &StopRow) -> &'a str
    requires { IfSome row.now.stop_headsign (λ n. n < length feed.now.headsigns) }
    ensures { result.now ≡ unwrap_or
        (option_or (option_map (text_of_number feed.now.headsigns) row.now.stop_headsign)
        trip.now.trip_headsign) [] }
{
    match row.stop_headsign.get() {
        Some(number) => feed.headsign(number),
        None => text_or_empty(&trip.trip_headsign),
    }
}

// The text, or the empty one where there is none.
fn text_or_empty(text: &Option<Text>) -> &str
    ensures { result.now ≡ unwrap_or text.now [] }
{
    match text {
        Some(text) => text.as_str(),
        None => "",
    }
}

// Whether one of the periods of a trip starts this run and its times are not exact. None begins
// before the one before it ends, so that only the last one that has begun can start the run.
fn has_inexact(periods: &[Frequency], run: u32) -> bool
    requires moves { All (λ f. 0 < f.headway_secs) periods.now }
    requires apart { ArePeriods periods.now }
    ensures { result ≡ list_any (λ p. starts_run (frequency_of p) run
        && ((frequency_of p).exact_times == 0)) periods.now }
{
    let begun = periods.partition_point(|period| period.start_time.seconds() <= run);
    begun > 0 && is_inexact(&periods[begun - 1], run)
}

// Whether a period starts this run and its times are not exact.
fn is_inexact(period: &Frequency, run: u32) -> bool
    requires { 0 < period.now.headway_secs }
    ensures { result ≡ (starts_run (frequency_of period.now) run
        && ((frequency_of period.now).exact_times == 0)) }
{
    let start = period.start_time.seconds();
    start <= run
        && run < period.end_time.seconds()
        && (run - start) % period.headway_secs == 0
        && period.exact_times.number() == 0
}
