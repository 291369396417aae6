ghost use Rattle.std.specs.Prelude.{◌≡◌, ◌≤◌, ◌<◌, ◌&&◌, All, AllPairs, List, false, length, slice_index_or, unwrap_or, IfOk};
ghost use Rattle.gtfs_stop_times.specs.RowTimes.{left_at};
ghost use Rattle.gtfs_rows.specs.RowsInMemory.{stop_row_of, trip_of};
ghost use Rattle.gtfs_rows.specs.declared.frequency.Frequency.{Frequency};
ghost use Rattle.gtfs_rows.specs.declared.parts.Parts.{Parts};
ghost use Rattle.gtfs_stop_times.specs.declared.stop_row.StopRow.{StopRow as StopTime};
ghost use Rattle.gtfs_rows.specs.declared.trip.Trip.{Trip};
ghost use Rattle.gtfs_rows.specs.Runs.{allows_boarding, is_departure_row, is_timed};
ghost use Rattle.gtfs_runs.specs.steps.NotedRows.{noted_row};
ghost use Rattle.gtfs_runs.specs.steps.Passings.{first_left};

use crate::place::Place;
use gtfs_field::OutOfMemory;
use gtfs_rows::{StopRow, TripNo};
use gtfs_stop_times::small_number;

/// A stop time at which riders can leave its stop:
/// its trip, and its position among the stop times of that trip.
#[derive(Clone, Copy, Debug, PartialEq, Eq, PartialOrd, Ord)]
pub struct DepartureRow {
    trip: u32,
    row: u32,
    // When the vehicle leaves, and `stop_sequence`: so lanes are made without a look at the stop
    // times of many trips, which lie far apart.
    left: u32,
    sequence: u32,
    // How many trips come before its own in an index, by which it finds what is kept of the trip: so
    // the rows of a stop look at trips that lie one after the other. Outside an index it is 0.
    rank: u32,
}

impl DepartureRow {
    // This stop time of a trip of a rank at a position, all as the index keeps them.
    pub(crate) fn new(trip: u32, rank: u32, row: u32, stop_time: &StopRow) -> DepartureRow
        ensures { result ≡ noted_row trip rank row stop_time.now }
    {
        DepartureRow {
            trip,
            row,
            left: left(stop_time),
            sequence: stop_time.stop_sequence,
            rank,
        }
    }

    /// The trip.
    pub fn trip(&self) -> TripNo
        ensures { result.0 ≡ self.now.trip }
    {
        TripNo(self.trip as usize)
    }

    /// The position among the stop times of the trip, from 0.
    pub fn row(&self) -> usize
        ensures { result ≡ self.now.row }
    {
        self.row as usize
    }

    // When the vehicle leaves, in seconds.
    pub(crate) fn left(&self) -> u32
        ensures { result ≡ self.now.left }
    {
        self.left
    }

    // `stop_sequence`.
    pub(crate) fn sequence(&self) -> u32
        ensures { result ≡ self.now.sequence }
    {
        self.sequence
    }

    // The rank of the trip in the index.
    pub(crate) fn rank(&self) -> u32
        ensures { result ≡ self.now.rank }
    {
        self.rank
    }
}

// This stop time of a trip of a rank at a position.
pub(crate) fn row_at(
    trip: TripNo,
    rank: u32,
    position: usize,
    stop_time: &StopRow,
) -> Result<DepartureRow, OutOfMemory>
    ensures { IfOk result (λ row. row ≡ noted_row trip.0 rank position stop_time.now) }
{
    let trip = small_number(trip.0)?;
    Ok(DepartureRow::new(trip, rank, small_number(position)?, stop_time))
}

// Whether riders can leave a stop at the stop time of this position among those of a trip.
//
// GTFS Schedule Reference, stop_times.txt.
pub(crate) fn is_departure_row(rows: &[StopRow], position: usize) -> bool
    requires within { position < length rows.now }
    requires ascend { AllPairs (λ r s. r.stop_sequence < s.stop_sequence) rows.now }
    ensures { (p : Parts) (t : Trip) (fs : List Frequency) (d : StopTime) → result
        ≡ is_departure_row (trip_of p t rows.now fs)
        (stop_row_of p (slice_index_or rows.now position d)) }
{
    position < rows.len() - 1 && lets_board(&rows[position])
}

// Whether riders can board, where the trip goes on:
// the stop time has a time, and its pick-up type is not 1.
fn lets_board(row: &StopRow) -> bool
    ensures { (p : Parts) → result
        ≡ (is_timed (stop_row_of p row.now) && allows_boarding (stop_row_of p row.now)) }
{
    row.is_timed() && row.pickup_type.number() != 1
}

// Whether riders can leave the place at the stop time of this position.
pub(crate) fn leaves_place(place: &Place, rows: &[StopRow], position: usize) -> bool
    requires within { position < length rows.now }
    requires stops { All (λ r. r.stop_id.0 < length place.now) rows.now }
    requires ascend { AllPairs (λ r s. r.stop_sequence < s.stop_sequence) rows.now }
    ensures { (p : Parts) (t : Trip) (fs : List Frequency) (d : StopTime) → result
        ≡ (is_departure_row (trip_of p t rows.now fs)
        (stop_row_of p (slice_index_or rows.now position d))
        && slice_index_or place.now (slice_index_or rows.now position d).stop_id.0 false) }
{
    // Few stop times are at the place, so this is asked first.
    place.has(rows[position].stop_id) && is_departure_row(rows, position)
}

// When a vehicle leaves the first of the stop times of a trip, 0 where there is none.
pub(crate) fn trip_start(rows: &[StopRow]) -> u32
    ensures value { result ≡ first_left rows.now }
    ensures bound { result ≤ 7_199_999 }
{
    rows.first().map_or(0, left)
}

// When a vehicle leaves, 0 where the stop time has no time.
pub(crate) fn left(row: &StopRow) -> u32
    ensures value { result ≡ unwrap_or (left_at row.now) 0 }
    ensures bound { result ≤ 7_199_999 }
{
    row.departs().map_or(0, |clock| clock.seconds())
}
