ghost use Rattle.std.specs.Prelude.{◌≡◌, ◌<◌, ◌≤◌, ◌++◌, IfOk, Some, length, map, slice_get};
ghost use Rattle.std.specs.List.{list_any};
ghost use Rattle.csv.specs.Records.{Rising};
ghost use Rattle.gtfs_stop_times.specs.StopTimesByTrip.{AreWithin, in_turn, is_at, rows_in};
ghost use Rattle.gtfs_stop_times.specs.RenumberedRows.{renumbered_row};
ghost use Rattle.gtfs_stop_times.specs.StopLists.{stops_in};
ghost use Rattle.gtfs_table.specs.FieldOffsets.{parts};

use crate::marks::{marked, marked_in_ranges, marked_in_turn};
use crate::optional::OptionalHeadsign;
use crate::ranges::ranges_in_turn;
use crate::renumber::renumber;
use crate::stop_lists::{StopLists, stops_of};
use crate::stop_row::StopRow;
use crate::stretches::stretch;
use gtfs_field::{List, OutOfMemory};
use std::alloc::Global;
use std::marker::Model;

/// Rows of a list that stand one after the other, as those of a trip.
#[derive(Clone, Copy, Debug, PartialEq, Eq)]
pub struct RowRange {
    /// The index of the first one.
    pub start: usize,
    /// The index after the last one.
    pub end: usize,
}

/// The stop times of all trips, by the numbers of trips and in each trip by sequence (GTFS
/// Schedule Reference, `stop_times.txt`).
///
/// They are seen as one list, trip after trip, and where the stop times of each trip begin. In
/// memory they may stand in the order of the file, and those of two feeds in two lists, so that
/// they need not be moved.
#[derive(Drop)]
pub struct StopTimesByTrip {
    pub(crate) rows: Vec<StopRow>,
    pub(crate) places: Places,
}

// Where the stop times of each trip stand.
#[derive(Drop)]
pub(crate) enum Places {
    // One trip after the other, each from its start to the next one.
    InTurn(Vec<usize>),
    // Each trip where it is, in the rows or in these, which are counted behind them. The ranges
    // have so many rows in all.
    Anywhere(Vec<StopRow>, Vec<RowRange>, usize),
}

impl Model for StopTimesByTrip {
    ghost use Rattle.gtfs_stop_times.specs.StopTimesByTrip.{AreSoundPlaces, StopTimesOfTrips, at_places};

    ghost Value = { StopTimesOfTrips };

    ghost view = { λ t. at_places t.rows.items t.places };

    ghost invariant = { λ t. AreSoundPlaces t.rows.items t.places };
}

impl StopTimesByTrip {
    /// Stop times that stand trip after trip, and where those of each trip begin.
    /// It takes no memory.
    pub fn new(rows: List<StopRow>, starts: List<usize>) -> StopTimesByTrip
        ensures rows { result.rows ≡ rows }
        ensures starts { result.starts ≡ starts }
    {
        StopTimesByTrip {
            rows: rows.into_vec(),
            places: Places::InTurn(starts.into_vec()),
        }
    }

    /// Stop times of which those of each trip stand somewhere in a list of rows, a range
    /// for each trip. The ranges have so many rows in all; what else is in the list is
    /// never seen. It takes no memory.
    pub fn at_ranges(rows: Vec<StopRow>, ranges: Vec<RowRange>, len: usize) -> StopTimesByTrip
        requires within { AreWithin (length rows.items) ranges.items }
        requires len { length (in_turn (map (rows_in rows.items) ranges.items)).rows ≡ len }
        ensures { result ≡ in_turn (map (rows_in rows.items) ranges.items) }
    {
        let alloc = *rows.allocator();
        StopTimesByTrip {
            rows,
            places: Places::Anywhere(Vec::new(alloc), ranges, len),
        }
    }

    /// How many stop times all trips have.
    pub fn len(&self) -> usize
        ensures { result ≡ length self.now.rows }
    {
        match &self.places {
            Places::InTurn(_) => self.rows.len(),
            Places::Anywhere(_, _, len) => *len,
        }
    }

    /// The stop times of the trip of this number, by sequence. The starts rise, from 0 on, and none
    /// lies past the last stop time; the number is that of a start.
    pub fn of_trip(&self, trip: usize) -> &[StopRow]
        requires rising { Rising 0 self.now.starts (length self.now.rows) }
        requires within { trip < length self.now.starts }
        ensures { slice_get (parts self.now.starts self.now.rows) trip ≡ Some result.now }
    {
        match &self.places {
            Places::InTurn(starts) => stretch(&self.rows, starts, trip),
            Places::Anywhere(more, ranges, _) => rows_in(&self.rows, more, ranges[trip]),
        }
    }

    /// Of each trip, by its number, whether it has a stop time at one of these stops: those at whose
    /// number there is `true`. The starts rise, from 0 on, and none lies past the last stop time.
    ///
    /// It goes through the stop times in the order in which they stand in memory, which takes less
    /// time than from trip to trip.
    ///
    /// # Errors
    /// `OutOfMemory` where memory is refused.
    pub fn trips_at(&self, alloc: Global, stops: &[bool]) -> Result<Vec<bool>, OutOfMemory>
        requires { Rising 0 self.now.starts (length self.now.rows) }
        ensures { IfOk result (λ trips. trips.items
            ≡ map (list_any (is_at stops.now)) (parts self.now.starts self.now.rows)) }
    {
        match &self.places {
            Places::InTurn(starts) => {
                let marks = marked(alloc, &self.rows, &[], stops)?;
                marked_in_turn(alloc, &marks, starts)
            }
            Places::Anywhere(more, ranges, _) => {
                let marks = marked(alloc, &self.rows, more, stops)?;
                marked_in_ranges(alloc, &marks, ranges)
            }
        }
    }

    /// For each trip, by its number, the stops of its stop times in order. The starts rise, from 0
    /// on, and none lies past the last stop time.
    ///
    /// Like [`StopTimesByTrip::trips_at`], it goes through the stop times in the order in which they
    /// stand in memory.
    ///
    /// # Errors
    /// `OutOfMemory` where memory is refused, and where the number of a stop is above
    /// 4,294,967,295.
    pub fn stop_lists(&self, alloc: Global) -> Result<StopLists, OutOfMemory>
        requires { Rising 0 self.now.starts (length self.now.rows) }
        ensures { IfOk result (λ lists. lists
            ≡ map stops_in (parts self.now.starts self.now.rows)) }
    {
        match &self.places {
            Places::InTurn(starts) => {
                let stops = stops_of(alloc, &self.rows, &[])?;
                let ranges = ranges_in_turn(alloc, &self.rows, starts)?;
                Ok(StopLists::at_ranges(stops, ranges))
            }
            Places::Anywhere(more, ranges, _) => {
                let stops = stops_of(alloc, &self.rows, more)?;
                Ok(StopLists::at_ranges(stops, Vec::from_slice(alloc, ranges)?))
            }
        }
    }

    /// The same once more.
    ///
    /// # Errors
    /// `OutOfMemory` where memory is refused.
    pub fn copied(&self, alloc: Global) -> Result<StopTimesByTrip, OutOfMemory>
        ensures { IfOk result (λ copy. copy ≡ self.now) }
    {
        let rows = Vec::from_slice(alloc, &self.rows)?;
        let places = match &self.places {
            Places::InTurn(starts) => Places::InTurn(Vec::from_slice(alloc, starts)?),
            Places::Anywhere(more, ranges, len) => Places::Anywhere(
                Vec::from_slice(alloc, more)?,
                Vec::from_slice(alloc, ranges)?,
                *len,
            ),
        };
        Ok(StopTimesByTrip { rows, places })
    }

    /// The same with other numbers of stops and headsigns: at each number stands what it becomes. A
    /// stop that has none becomes the first one, and a headsign that has none becomes none.
    ///
    /// The numbers are written into the stop times where they stand. It takes no memory.
    pub fn renumbered(self, stops: &[usize], headsigns: &[OptionalHeadsign]) -> StopTimesByTrip
        ensures rows { result.rows ≡ map (renumbered_row stops.now headsigns.now) self.rows }
        ensures starts { result.starts ≡ self.starts }
    {
        let StopTimesByTrip { mut rows, places } = self;
        renumber(&mut rows, stops, headsigns);
        match places {
            Places::InTurn(starts) => StopTimesByTrip::new(List::new(rows), List::new(starts)),
            Places::Anywhere(mut more, ranges, len) => {
                renumber(&mut more, stops, headsigns);
                StopTimesByTrip {
                    rows,
                    places: Places::Anywhere(more, ranges, len),
                }
            }
        }
    }
}

// The rows of a range in a list and in another one, which is counted behind it.
fn rows_in<'a>(rows: &'a [StopRow], more: &'a [StopRow], range: RowRange) -> &'a [StopRow]
    requires within { (range.start ≤ range.end) × (range.end ≤ length (rows.now ++ more.now)) }
    requires unbroken { length rows.now < range.end → length rows.now ≤ range.start }
    ensures { result.now ≡ rows_in (rows.now ++ more.now) range }
{
    let behind = rows.len();
    if range.end <= behind {
        &rows[range.start..range.end]
    } else {
        &more[range.start - behind..range.end - behind]
    }
}
