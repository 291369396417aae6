ghost use Rattle.std.specs.Prelude.{◌≡◌, ◌<◌, ◌≤◌, ◌++◌, ◌∷◌, [], All, IfOk, OnOk, Some, length, map, slice_get};
ghost use Rattle.gtfs_stop_times.specs.StopTimesByTrip.{AreWithin, items_in};
ghost use Rattle.gtfs_stop_times.specs.StopLists.{LiesIn, stops_in};

use crate::by_trip::RowRange;
use crate::numbers::small_number;
use crate::stop_row::StopRow;
use gtfs_field::OutOfMemory;
use std::alloc::Global;
use std::marker::Model;

/// The numbers of the stops of trips, a list for each trip.
///
/// All lists lie in one vector: a vector for each trip would take long to make and to free. A
/// number takes four bytes.
#[derive(Drop)]
pub struct StopLists {
    stops: Vec<u32>,
    // Where the list of each trip lies.
    ranges: Vec<RowRange>,
}

impl Model for StopLists {
    ghost use Rattle.std.specs.Prelude.{ℕ, List, length, map};
    ghost use Rattle.gtfs_stop_times.specs.StopTimesByTrip.{AreWithin, items_in};

    ghost Value = { List (List ℕ) };

    ghost view = { λ l. map (items_in l.stops.items) l.ranges.items };

    ghost invariant = { λ l. AreWithin (length l.stops.items) l.ranges.items };
}

impl StopLists {
    /// No lists yet, with room for this many lists and this many stops in all.
    ///
    /// # Errors
    /// `OutOfMemory` where memory is refused.
    pub fn with_room(alloc: Global, lists: usize, stops: usize) -> Result<StopLists, OutOfMemory>
        ensures { IfOk result (λ lists. lists ≡ []) }
    {
        Ok(StopLists {
            stops: Vec::with_capacity(alloc, stops)?,
            ranges: Vec::with_capacity(alloc, lists)?,
        })
    }

    // Lists that lie at these ranges of these stops.
    pub(crate) fn at_ranges(stops: Vec<u32>, ranges: Vec<RowRange>) -> StopLists
        requires { AreWithin (length stops.items) ranges.items }
        ensures { result ≡ map (items_in stops.items) ranges.items }
    {
        StopLists { stops, ranges }
    }

    /// Adds the list of the stops of these stop times.
    ///
    /// # Errors
    /// `OutOfMemory` where memory is refused, and where the number of a stop is above
    /// 4,294,967,295.
    pub fn push(&mut self, rows: &[StopRow]) -> Result<(), OutOfMemory>
        ensures { OnOk result (self.new ≡ self.old ++ stops_in rows.now ∷ []) }
    {
        let start = self.stops.len();
        push_stops(&mut self.stops, rows)?;
        let end = self.stops.len();
        self.ranges.push(RowRange { start, end })?;
        Ok(())
    }

    /// The list of this number, from 0.
    pub fn get(&self, number: usize) -> &[u32]
        requires { number < length self.now }
        ensures { slice_get self.now number ≡ Some result.now }
    {
        let range = self.ranges[number];
        &self.stops[range.start..range.end]
    }

    /// The list in which all lists lie. It may have stops that are in none of them.
    pub fn all(&self) -> &[u32]
        ensures { All (LiesIn result.now) self.now }
    {
        &self.stops
    }
}

// The stops of these rows, and then those of `more`, which are counted after them.
pub(crate) fn stops_of(
    alloc: Global,
    rows: &[StopRow],
    more: &[StopRow],
) -> Result<Vec<u32>, OutOfMemory>
    ensures { IfOk result (λ stops. stops.items ≡ stops_in (rows.now ++ more.now)) }
{
    let mut stops = Vec::with_capacity(alloc, rows.len().saturating_add(more.len()))?;
    push_stops(&mut stops, rows)?;
    push_stops(&mut stops, more)?;
    Ok(stops)
}

// Adds the stops of these rows.
fn push_stops(stops: &mut Vec<u32>, rows: &[StopRow]) -> Result<(), OutOfMemory>
    ensures pushed { OnOk result (stops.new.items ≡ stops.old.items ++ stops_in rows.now) }
    ensures none_lost { length stops.old.items ≤ length stops.new.items }
{
    for row in rows {
        stops.push(small_number(row.stop_id.0)?)?;
    }
    Ok(())
}
