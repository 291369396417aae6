//! The timetable of a route: a sheet for each of its patterns that has a run on the day.
ghost use Rattle.std.specs.Prelude.{◌≡◌, ◌≢◌, ◌<◌, ◌++◌, ◌↔◌, All, IfErr, IfOk, IsErrOf, OnOk, false, length, map};
ghost use Rattle.std.specs.List.{filter, flat_map};
ghost use Rattle.gtfs_rows.specs.RowsInMemory.{content_of_parts};
ghost use Rattle.gtfs_rows.specs.RowsInMemory.{route_ids, stop_ids, text_of_number};
ghost use Rattle.gtfs_board.specs.LentSheets.{plain_sheet};
ghost use Rattle.gtfs_board.specs.TimetableColumns.{IsPattern, IsShownAlong, goes, named_column, sheet_of_columns, sheets_along};
ghost use Rattle.gtfs_board.specs.Timetable.{is_route, sheets};
ghost use Rattle.gtfs_times.specs.Filling.{timed};
ghost use Rattle.gtfs_times.specs.TimedRows.{timed_parts};

use crate::sheet::columns::{RunColumn, columns};
use crate::sheet::times::sheet_times;
use crate::sheet::{Sheet, TableFault};
use crate::showing::{stop_id, trip_id};
use gtfs_field::{Day, List, OutOfMemory};
use gtfs_rows::{RouteNo, StopNo};
use gtfs_runs::{Feed, Pattern, Times, patterns};
use std::alloc::Global;

/// The timetable of a route on a day: a sheet for each direction and list of stops along which a
/// trip of the route runs on that day, by direction, none before 0 and 0 before 1, and then by the
/// ids of the stops. With a direction given only the trips count that have this one. Under
/// [`Times::Interpolated`] the times are those of trips whose stop times are filled at an even
/// pace; which runs there are, and when they start, is the same under both.
///
/// GTFS Schedule Reference, `trips.txt`, `stop_times.txt`, `frequencies.txt`,
/// `calendar.txt` and `calendar_dates.txt`.
///
/// # Errors
/// `UnknownRoute`, judged first, exactly where the feed has no such route, and `OutOfMemory`.
pub fn timetable<'a>(
    alloc: Global,
    feed: &'a Feed,
    route: &str,
    direction: Option<u8>,
    day: Day,
    times: Times,
) -> Result<Vec<Sheet<'a>>, TableFault>
    ensures unknown { IsErrOf result TableFault.UnknownRoute
        ↔ (is_route (content_of_parts feed.now) route.now ≡ false) }
    ensures sheets { IfOk result (λ found. map plain_sheet found.items
        ≡ sheets (timed times (content_of_parts feed.now)) route.now direction day) }
{
    match feed.route(route) {
        Some(number) => sheets_of_route(alloc, feed, number, direction, day, times),
        None => Err(TableFault::UnknownRoute),
    }
}

// The timetable of the route of a number.
fn sheets_of_route<'a>(
    alloc: Global,
    feed: &'a Feed,
    route: RouteNo,
    direction: Option<u8>,
    day: Day,
    times: Times,
) -> Result<Vec<Sheet<'a>>, TableFault>
    requires { route.0 < length feed.now.routes }
    ensures known { IfErr result (λ e. e ≢ TableFault.UnknownRoute) }
    ensures sheets { IfOk result (λ found. map plain_sheet found.items
        ≡ sheets (timed times (content_of_parts feed.now))
        (text_of_number (route_ids feed.now) route.0) direction day) }
{
    feed.soundness();
    let id = feed.route_by_number(route).route_id.as_str();
    let patterns = patterns(alloc, feed, route)?;
    let found = sheets_of(alloc, feed, id, direction, day, patterns.as_slice(), times)?;
    Ok(found)
}

// The sheets of the patterns that have the direction, if one is given.
fn sheets_of<'a>(
    alloc: Global,
    feed: &'a Feed,
    route: &'a str,
    direction: Option<u8>,
    day: Day,
    patterns: &[Pattern],
    times: Times,
) -> Result<Vec<Sheet<'a>>, OutOfMemory>
    requires { All (IsPattern feed.now) patterns.now }
    ensures { IfOk result (λ found. map plain_sheet found.items
        ≡ flat_map (sheets_along (timed_parts times feed.now) route.now day)
        (filter (goes direction) patterns.now)) }
{
    let mut found = Vec::new(alloc);
    for pattern in patterns {
        if goes(pattern, direction) {
            push_pattern(alloc, feed, route, day, pattern, times, &mut found)?;
        }
    }
    Ok(found)
}

// Whether the trips of a pattern have the direction, if one is given.
fn goes(pattern: &Pattern, direction: Option<u8>) -> bool
    ensures { result ≡ goes direction pattern.now }
{
    match direction {
        Some(number) => pattern.direction == Some(number),
        None => true,
    }
}

// Adds the sheet of a pattern if one of its trips runs on the day.
fn push_pattern<'a>(
    alloc: Global,
    feed: &'a Feed,
    route: &'a str,
    day: Day,
    pattern: &Pattern,
    times: Times,
    found: &mut Vec<Sheet<'a>>,
) -> Result<(), OutOfMemory>
    requires { IsPattern feed.now pattern.now }
    ensures { OnOk result (map plain_sheet found.new.items
        ≡ map plain_sheet found.old.items
        ++ sheets_along (timed_parts times feed.now) route.now day pattern.now) }
{
    feed.soundness();
    let trips = pattern.trips.as_slice();
    let columns = columns(alloc, feed, day, trips)?;
    let shown = columns.as_slice();
    if shown.is_empty() {
        return Ok(());
    }
    let sheet = sheet_of(alloc, feed, route, day, pattern, shown, times)?;
    found.push(sheet)?;
    Ok(())
}

// The sheet of a pattern with these columns.
fn sheet_of<'a>(
    alloc: Global,
    feed: &'a Feed,
    route: &'a str,
    day: Day,
    pattern: &Pattern,
    columns: &[RunColumn],
    times: Times,
) -> Result<Sheet<'a>, OutOfMemory>
    requires stops { All (λ s. s.0 < length feed.now.stops) pattern.now.stops }
    requires shown { All (IsShownAlong feed.now (length pattern.now.stops)) columns.now }
    ensures { IfOk result (λ sheet. plain_sheet sheet
        ≡ sheet_of_columns (timed_parts times feed.now) route.now day pattern.now columns.now) }
{
    let stops = stop_texts(alloc, feed, pattern.stops.as_slice())?;
    let runs = named(alloc, feed, columns)?;
    let times = sheet_times(alloc, feed, pattern.stops.len(), columns, times)?;
    Ok(Sheet {
        route,
        direction: pattern.direction,
        day,
        stops: List::new(stops),
        runs: List::new(runs),
        times: List::new(times),
    })
}

// The ids of stops.
fn stop_texts<'a>(
    alloc: Global,
    feed: &'a Feed,
    stops: &[StopNo],
) -> Result<Vec<&'a str>, OutOfMemory>
    requires { All (λ s. s.0 < length feed.now.stops) stops.now }
    ensures { IfOk result (λ ids. map (λ id. id.now) ids.items
        ≡ map (λ s. text_of_number (stop_ids feed.now) s.0) stops.now) }
{
    let mut ids = Vec::with_capacity(alloc, stops.len())?;
    for stop in stops {
        ids.push(stop_id(feed, *stop))?;
    }
    Ok(ids)
}

// The runs, each with the id of its trip.
fn named<'a>(
    alloc: Global,
    feed: &'a Feed,
    columns: &[RunColumn],
) -> Result<Vec<(u32, &'a str)>, OutOfMemory>
    requires { All (λ c. c.trip.0 < length feed.now.trips) columns.now }
    ensures { IfOk result (λ runs. map (λ run. (run.0, run.1.now)) runs.items
        ≡ map (named_column feed.now) columns.now) }
{
    let mut runs = Vec::with_capacity(alloc, columns.len())?;
    for column in columns {
        runs.push((column.start, trip_id(feed, column.trip)))?;
    }
    Ok(runs)
}
