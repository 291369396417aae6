//! Files that are short for sure: bounds of their texts that need no pass over their rows.
ghost use Rattle.std.specs.Prelude.{◌≡◌, length, false, true};
ghost use Rattle.gtfs_rows.specs.RowsInMemory.{IsSoundParts, content_of_parts};
ghost use Rattle.gtfs_table.specs.declared.file.File.TheVariants as file;
ghost use Rattle.gtfs_writing.specs.LongestTexts.{longest};
ghost use Rattle.gtfs_rows.specs.FileTexts.{is_longer};

use gtfs_field::Text;
use gtfs_rows::{Parts, Stop, Trip};
use gtfs_table::File;

// The bytes of the header of stop_times.txt.
const HEADER: u64 = 108;

// The most bytes of a row of stop_times.txt beside those of its three texts: two times
// (HHH:MM:SS), a sequence of ten digits, three choices, eight commas and the end of the row,
// and the quotes around the texts.
const WITHOUT_TEXTS: u128 = 2 * 9 + 10 + 3 + 8 + 1 + 3 * 2;

// Whether the text of a file is surely no longer than this limit, by how many rows it has and
// how long their texts are at the most. Only stop_times.txt is asked, which in most feeds is
// longer than all others together.
pub(crate) fn is_surely_within(parts: &Parts, file: File, limit: u64) -> bool
    requires { IsSoundParts parts.now }
    ensures { result ≡ true → is_longer (content_of_parts parts.now) limit file ≡ false }
{
    match file {
        File::StopTimes => are_stop_times_within(parts, limit),
        _ => false,
    }
}

// A text doubles at the most, where it has nothing but quotes.
fn are_stop_times_within(parts: &Parts, limit: u64) -> bool
    requires { IsSoundParts parts.now }
    ensures { result ≡ true → is_longer (content_of_parts parts.now) limit file.StopTimes ≡ false }
{
    let Some(room) = limit.checked_sub(HEADER) else {
        return false;
    };
    let texts = longest_trip_id(parts.trips.as_slice()) as u128
        + longest_stop_id(parts.stops.as_slice()) as u128
        + longest_headsign(parts.headsigns.as_slice()) as u128;
    let row = 2 * texts + WITHOUT_TEXTS;
    parts.stop_times.len() as u128 <= room as u128 / row
}

fn longest_trip_id(trips: &[Trip]) -> usize
    ensures { result ≡ longest (λ t. t.trip_id) trips.now }
{
    trips
        .iter()
        .fold(0, |longest, trip| longest.max(trip.trip_id.len()))
}

fn longest_stop_id(stops: &[Stop]) -> usize
    ensures { result ≡ longest (λ s. s.stop_id) stops.now }
{
    stops
        .iter()
        .fold(0, |longest, stop| longest.max(stop.stop_id.len()))
}

fn longest_headsign(headsigns: &[Text]) -> usize
    ensures { result ≡ longest (λ t. t) headsigns.now }
{
    headsigns
        .iter()
        .fold(0, |longest, headsign| longest.max(headsign.len()))
}
