ghost use Rattle.std.specs.Prelude.{◌≡◌, IfOk, map};
ghost use Rattle.gtfs_feed.specs.FeedDrafts.{parts_with};
ghost use Rattle.gtfs_reading.specs.FeedRows.{AreRowsOf, rows_in};
ghost use Rattle.gtfs_rows.specs.ContentRead.{content_of as content_of_dataset};
ghost use Rattle.gtfs_rows.specs.RowsInMemory.{content_of_parts, stop_row_of};
ghost use Rattle.gtfs_table.specs.FieldOffsets.{parts};
ghost use Rattle.gtfs_table.specs.Tables.{Dataset};
ghost use Rattle.gtfs_reading.specs.FirstNamed.{headsigns_in};

use crate::feed::Feed;
use gtfs_field::OutOfMemory;
use gtfs_reading::{FeedRows, StopTimes};
use gtfs_rows::Parts;
use gtfs_rules::Passed;
use std::alloc::Global;
use std::hash::RandomState;

impl Feed {
    /// The feed of a dataset that passed the validator: its content with numbers in place of ids
    /// (GTFS Schedule Reference, "Dataset Files").
    ///
    /// Headsigns of stop times have their numbers in the order in which the stop times first
    /// name them, trip after trip and in each trip by sequence. Stop times were read when
    /// the dataset was checked, and are not read again. The dataset is lent and not changed,
    /// and the feed lends nothing of it. Headsigns are hashed by the random state, on which
    /// no answer of the feed depends.
    ///
    /// # Errors
    /// `OutOfMemory` where memory is refused,
    /// and where stop times have more than 4,294,967,295 different headsigns.
    pub fn new(alloc: Global, random: RandomState, passed: &Passed<'_>) -> Result<Feed, OutOfMemory>
        ensures content { IfOk result
            (λ feed. content_of_parts feed ≡ content_of_dataset passed.now) }
        ensures headsigns { IfOk result
            (λ feed. feed.headsigns ≡ headsigns_in (content_of_dataset passed.now)) }
    {
        let rows = FeedRows::new(alloc, passed.tables(), &passed.ids().network)?;
        let stop_times = StopTimes::new(alloc, random, passed)?;
        let parts = joined(rows, stop_times);
        Feed::assemble(alloc, random, parts)
    }
}

// The rows of a feed, with its stop times.
pub(crate) fn joined(rows: FeedRows, stop_times: StopTimes) -> Parts
    ensures whole { result ≡ parts_with rows stop_times }
    ensures rows { rows_in result ≡ rows }
    ensures stop_times { result.stop_times ≡ stop_times.stop_times }
    ensures headsigns { result.headsigns ≡ stop_times.headsigns }
    ensures content { (d : Dataset) → AreRowsOf d rows
        → map (map (stop_row_of result)) (parts stop_times.stop_times.starts stop_times.stop_times.rows)
        ≡ map (λ t. t.stop_rows) (content_of_dataset d).trips
        → content_of_parts result ≡ content_of_dataset d }
{
    let StopTimes {
        stop_times,
        headsigns,
    } = stop_times;
    rows.with_stop_times(stop_times, headsigns)
}
