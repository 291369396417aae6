ghost use Rattle.std.specs.Prelude.{◌≡◌, ◌<◌, ◌≤◌, ◌++◌, IfOk, length, map};
ghost use Rattle.std.specs.List.{All};
ghost use Rattle.csv.specs.Records.{Rising};
ghost use Rattle.gtfs_stop_times.specs.StopTimesByTrip.{AreCounted, AreWithin, in_turn, rows_in};
ghost use Rattle.gtfs_stop_times.specs.JoinedStopTimes.{IsTripOf, list_of, trip_rows};
ghost use Rattle.gtfs_table.specs.FieldOffsets.{parts};

use crate::by_trip::{Places, RowRange, StopTimesByTrip};
use crate::ranges::ranges_in_turn;
use crate::stop_row::StopRow;
use gtfs_field::OutOfMemory;
use std::alloc::Global;

/// A trip of one of two feeds, by its number there.
#[derive(Clone, Copy, Debug, PartialEq, Eq)]
pub enum TripOf {
    /// One of the first feed.
    First(usize),
    /// One of the second feed.
    Second(usize),
}

// Rows, and where those of each trip stand among them.
#[derive(Drop)]
struct RangedRows {
    rows: Vec<StopRow>,
    ranges: Vec<RowRange>,
}

// Where the stop times of each trip stand, and how many these are in all.
#[derive(Drop)]
struct Ranges {
    of_trips: Vec<RowRange>,
    len: usize,
}

impl StopTimesByTrip {
    /// The stop times of trips of two feeds, in the order of these trips. In each feed the starts
    /// rise, from 0 on, and none lies past the last stop time; each trip has a start there.
    ///
    /// The stop times of both feeds stay where they are. Only where those of a feed stand in two
    /// lists themselves are the ones moved behind the others.
    ///
    /// # Errors
    /// `OutOfMemory` where memory is refused, or where the trips have more stop times in all than
    /// a `usize` counts, which takes one that is named again and again.
    pub fn joined(
        alloc: Global,
        first: StopTimesByTrip,
        second: StopTimesByTrip,
        trips: &[TripOf],
    ) -> Result<StopTimesByTrip, OutOfMemory>
        requires first { Rising 0 first.starts (length first.rows) }
        requires second { Rising 0 second.starts (length second.rows) }
        requires trips { All (IsTripOf (length first.starts) (length second.starts)) trips.now }
        ensures { IfOk result (λ joined. joined ≡ in_turn (map (trip_rows first second) trips.now)) }
    {
        let first = first.into_ranges(alloc)?;
        let second = second.into_ranges(alloc)?;
        let ranges = ranges_of(alloc, &first, &second, trips)?;
        let RangedRows { rows, ranges: _ } = first;
        let RangedRows {
            rows: more,
            ranges: _,
        } = second;
        let Ranges { of_trips, len } = ranges;
        Ok(StopTimesByTrip {
            rows,
            places: Places::Anywhere(more, of_trips, len),
        })
    }

    // All rows in one list, and where those of each trip stand.
    fn into_ranges(self, alloc: Global) -> Result<RangedRows, OutOfMemory>
        requires { Rising 0 self.starts (length self.rows) }
        ensures within { IfOk result (λ r. AreWithin (length r.rows.items) r.ranges.items) }
        ensures rows { IfOk result (λ r. map (rows_in r.rows.items) r.ranges.items
            ≡ parts self.starts self.rows) }
    {
        let StopTimesByTrip { rows, places } = self;
        match places {
            Places::InTurn(starts) => in_turn(alloc, rows, &starts),
            Places::Anywhere(more, ranges, _) => in_one_list(rows, &more, ranges),
        }
    }
}

// Rows of trips that stand one after the other, each from its start to the next one.
fn in_turn(alloc: Global, rows: Vec<StopRow>, starts: &[usize]) -> Result<RangedRows, OutOfMemory>
    requires { Rising 0 starts.now (length rows.items) }
    ensures within { IfOk result (λ r. AreWithin (length r.rows.items) r.ranges.items) }
    ensures rows { IfOk result (λ r. map (rows_in r.rows.items) r.ranges.items
        ≡ parts starts.now rows.items) }
{
    let ranges = ranges_in_turn(alloc, &rows, starts)?;
    Ok(RangedRows { rows, ranges })
}

// Rows of which some stand in a list of their own, which are moved behind the others.
fn in_one_list(
    rows: Vec<StopRow>,
    more: &[StopRow],
    ranges: Vec<RowRange>,
) -> Result<RangedRows, OutOfMemory>
    requires { AreWithin (length (rows.items ++ more.now)) ranges.items }
    ensures within { IfOk result (λ r. AreWithin (length r.rows.items) r.ranges.items) }
    ensures rows { IfOk result (λ r. map (rows_in r.rows.items) r.ranges.items
        ≡ map (rows_in (rows.items ++ more.now)) ranges.items) }
{
    let mut rows = rows;
    rows.extend_from_slice(more)?;
    Ok(RangedRows { rows, ranges })
}

// Where each of these trips stands in the rows of the first feed, and in those of the second, which
// are counted behind them.
fn ranges_of(
    alloc: Global,
    first: &RangedRows,
    second: &RangedRows,
    trips: &[TripOf],
) -> Result<Ranges, OutOfMemory>
    requires first { AreWithin (length first.now.rows.items) first.now.ranges.items }
    requires second { AreWithin (length second.now.rows.items) second.now.ranges.items }
    requires trips { All (IsTripOf (length first.now.ranges.items)
        (length second.now.ranges.items)) trips.now }
    ensures counted { IfOk result (λ r. AreCounted first.now.rows.items second.now.rows.items
        r.of_trips.items r.len) }
    ensures rows { IfOk result (λ r.
        map (rows_in (first.now.rows.items ++ second.now.rows.items)) r.of_trips.items
        ≡ map (list_of (map (rows_in first.now.rows.items) first.now.ranges.items)
        (map (rows_in second.now.rows.items) second.now.ranges.items)) trips.now) }
{
    let mut of_trips = Vec::with_capacity(alloc, trips.len())?;
    let mut len: usize = 0;
    for trip in trips {
        let range = range_of(first, second, *trip);
        match len.checked_add(range.end - range.start) {
            Some(sum) => len = sum,
            None => return Err(OutOfMemory),
        }
        of_trips.push(range)?;
    }
    Ok(Ranges { of_trips, len })
}

// Where a trip stands in the rows of both feeds.
fn range_of(first: &RangedRows, second: &RangedRows, trip: TripOf) -> RowRange
    requires first { AreWithin (length first.now.rows.items) first.now.ranges.items }
    requires second { AreWithin (length second.now.rows.items) second.now.ranges.items }
    requires trip { IsTripOf (length first.now.ranges.items) (length second.now.ranges.items) trip }
    ensures within { (result.start ≤ result.end)
        × (result.end ≤ length (first.now.rows.items ++ second.now.rows.items)) }
    ensures unbroken { length first.now.rows.items < result.end
        → length first.now.rows.items ≤ result.start }
    ensures rows { rows_in (first.now.rows.items ++ second.now.rows.items) result
        ≡ list_of (map (rows_in first.now.rows.items) first.now.ranges.items)
        (map (rows_in second.now.rows.items) second.now.ranges.items) trip }
{
    match trip {
        TripOf::First(number) => first.ranges[number],
        TripOf::Second(number) => {
            let behind = first.rows.len();
            let range = second.ranges[number];
            RowRange {
                start: behind + range.start,
                end: behind + range.end,
            }
        }
    }
}
