ghost use Rattle.std.specs.Prelude.{◌≡◌, IfOk};
ghost use Rattle.gtfs_reading.specs.FirstNamed.{headsigns_in};
ghost use Rattle.gtfs_rows.specs.ContentRead.{content_of};
ghost use Rattle.gtfs_rows.specs.RowsInMemory.{content_of_parts};

use crate::feed::Feed;
use crate::reading::joined;
use gtfs_field::OutOfMemory;
use gtfs_reading::{FeedRows, StopTimesDraft};
use gtfs_rules::Passed;
use std::alloc::Global;
use std::hash::RandomState;
use std::marker::Model;

/// A feed of which all is read, before its stop times have their places. It lends nothing of the
/// tables: let them go first, and stop times that have to be copied find free what they took. It is
/// seen as the rows of the feed that it becomes.
///
/// ```text
/// let draft = FeedDraft::new(alloc, random, passed)?;
/// drop(tables);
/// let feed = draft.into_feed(alloc, random)?;
/// ```
#[derive(Drop)]
pub struct FeedDraft {
    rows: FeedRows,
    stop_times: StopTimesDraft,
}

impl Model for FeedDraft {
    ghost use Rattle.gtfs_feed.specs.FeedDrafts.{parts_with};
    ghost use Rattle.gtfs_rows.specs.declared.parts.Parts.{Parts as PartsValue};
    ghost use Rattle.gtfs_rows.specs.RowsInMemory.{IsSoundParts};

    ghost Value = { PartsValue };

    ghost view = { λ d. parts_with d.rows d.stop_times };

    ghost invariant = { λ d. IsSoundParts (parts_with d.rows d.stop_times) };
}

impl FeedDraft {
    /// Reads the feed of a dataset that passed the validator, with the same numbers as
    /// [`Feed::new`] (GTFS Schedule Reference, "Dataset Files"). Headsigns are hashed by the random
    /// state, on which no answer of the feed depends.
    ///
    /// # Errors
    /// `OutOfMemory` where memory is refused,
    /// and where stop times have more than 4,294,967,295 different headsigns.
    pub fn new(
        alloc: Global,
        random: RandomState,
        passed: Passed<'_>,
    ) -> Result<FeedDraft, OutOfMemory>
        ensures content { IfOk result
            (λ draft. content_of_parts draft ≡ content_of passed.entry) }
        ensures headsigns { IfOk result
            (λ draft. draft.headsigns ≡ headsigns_in (content_of passed.entry)) }
    {
        let tables = passed.tables();
        let (ids, stop_times) = passed.into_parts();
        let ids = &ids.network;
        // Stop times come first: what is noted of them is let go before other rows are made.
        let stop_times = StopTimesDraft::new(alloc, random, tables, ids, stop_times)?;
        let rows = FeedRows::new(alloc, tables, ids)?;
        Ok(FeedDraft { rows, stop_times })
    }

    /// The feed. The random state is not needed, as in [`Feed::assemble`].
    ///
    /// # Errors
    /// `OutOfMemory` where memory is refused.
    pub fn into_feed(self, alloc: Global, random: RandomState) -> Result<Feed, OutOfMemory>
        ensures { IfOk result (λ feed. feed ≡ self) }
    {
        let FeedDraft { rows, stop_times } = self;
        let stop_times = stop_times.into_stop_times()?;
        Feed::assemble(alloc, random, joined(rows, stop_times))
    }
}
