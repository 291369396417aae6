//! How much room the text of a file is likely to take,
//! so that it is made at once and the text need not grow.
ghost use Rattle.std.specs.Prelude.{◌≡◌, [], IfOk};
ghost use Rattle.gtfs_rows.specs.RowsInMemory.{IsSoundParts};
ghost use Rattle.gtfs_writing.specs.PlainStops.{AreIdsOf};

use crate::fields::Fields;
use crate::room_rows::RoomRows;
use crate::stop_ids::StopIds;
use crate::stop_times::write_trip_rows;
use crate::text_rows::TextRows;
use gtfs_field::OutOfMemory;
use gtfs_rows::Parts;
use gtfs_table::File;
use std::alloc::Global;

// Of so many trips the rows of one are counted.
const TRIPS: usize = 32;

// No more room than for so many bytes is made at once, however long the rows are that were counted.
const MOST: u64 = 1_073_741_824;

// No rows yet, and room for the text of a file, in the memory of these bytes.
pub(crate) fn in_memory(
    alloc: Global,
    parts: &Parts,
    file: File,
    memory: Vec<u8>,
) -> Result<TextRows, OutOfMemory>
    requires { IsSoundParts parts.now }
    ensures { IfOk result (λ rows. rows ≡ []) }
{
    let bytes = likely_length(alloc, parts, file)?;
    Ok(TextRows::in_memory(memory, bytes))
}

// How many bytes to make room for.
// Only stop_times.txt is asked, which in most feeds is longer than all others together.
fn likely_length(alloc: Global, parts: &Parts, file: File) -> Result<usize, OutOfMemory>
    requires { IsSoundParts parts.now }
{
    match file {
        File::StopTimes => likely_stop_times(alloc, parts),
        _ => Ok(0),
    }
}

// As many bytes as all rows take where they are as long as those of some trips,
// and a thirty-second more.
fn likely_stop_times(alloc: Global, parts: &Parts) -> Result<usize, OutOfMemory>
    requires { IsSoundParts parts.now }
{
    let stop_ids = StopIds::of(alloc, parts.stops.as_slice())?;
    let mut rows = Fields::new(alloc, RoomRows::new(u64::MAX));
    let outcome = count_some_trips(parts, &stop_ids, &mut rows);
    let left = rows.into_rows().left();
    let counted = outcome?.max(1) as u64;
    let bytes = u64::MAX - left.unwrap_or(0);
    let all = bytes.saturating_mul(parts.stop_times.len() as u64) / counted;
    Ok(all.saturating_add(all / 32).min(MOST) as usize)
}

// Takes the rows of some trips, and answers how many they are.
fn count_some_trips(
    parts: &Parts,
    stop_ids: &StopIds,
    rows: &mut Fields<RoomRows>,
) -> Result<usize, OutOfMemory>
    requires sound { IsSoundParts parts.now }
    requires stops { AreIdsOf parts.now.stops stop_ids.now }
{
    let trips = parts.trips.as_slice();
    let mut counted: usize = 0;
    for (n, trip) in trips.iter().enumerate() {
        if n % TRIPS == 0 {
            let of_trip = parts.stop_times.of_trip(n);
            write_trip_rows(parts, trip.trip_id.as_str(), stop_ids, of_trip, rows)?;
            counted = counted.saturating_add(of_trip.len());
        }
    }
    Ok(counted)
}
