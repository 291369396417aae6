ghost use Rattle.std.specs.Prelude.{◌≡◌, [], IfOk};
ghost use Rattle.gtfs_schema.specs.Problems.{Passes};
ghost use Rattle.gtfs_schema.specs.steps.FeedIds.{AreNetworkIdsOf};
ghost use Rattle.gtfs_rules.specs.StopTimes.{AreStopTimes};
ghost use Rattle.gtfs_reading.specs.StopTimeDraft.{lists_with};
ghost use Rattle.gtfs_reading.specs.StopTimeLists.{AreStopTimesOf};

use crate::gathered::{Gathered, begin};
use crate::stop_times::StopTimes;
use gtfs_field::{List, OutOfMemory, Text};
use gtfs_schema::NetworkIds;
use gtfs_stop_times::{HeadsignedStopTimes, KeptStopTimes};
use gtfs_table::Tables;
use std::alloc::Global;
use std::hash::RandomState;
use std::marker::Model;

/// The stop times of a dataset before they are those of a feed. It lends nothing of the
/// tables, so that they can be let go before rows are copied that have to be. It is
/// seen as the lists that it becomes.
#[derive(Drop)]
pub struct StopTimesDraft {
    stop_times: HeadsignedStopTimes,
    // Where those of each trip begin.
    starts: List<usize>,
    headsigns: List<Text>,
}

impl Model for StopTimesDraft {
    ghost use Rattle.gtfs_reading.specs.StopTimeDraft.{AreCut, lists_with};
    ghost use Rattle.gtfs_reading.specs.declared.stop_times.StopTimes.{StopTimes as StopTimesValue};

    ghost Value = { StopTimesValue };

    ghost view = { λ d. lists_with d.stop_times.rows d.starts d.headsigns };

    ghost invariant = { λ d. AreCut d.stop_times d.starts };
}

impl StopTimesDraft {
    /// The stop times of a dataset that passed, which has these ids (GTFS Schedule Reference,
    /// `stop_times.txt`). It takes over what was read when the dataset was checked. Only
    /// headsigns are read of the tables here. They are hashed by the random state, on which
    /// the lists do not depend.
    ///
    /// # Errors
    /// `OutOfMemory` where memory is refused,
    /// and where there are more than 4,294,967,295 different headsigns.
    pub fn new(
        alloc: Global,
        random: RandomState,
        tables: &Tables,
        ids: &NetworkIds<'_>,
        stop_times: KeptStopTimes,
    ) -> Result<StopTimesDraft, OutOfMemory>
        requires passes { Passes tables.now }
        requires ids { AreNetworkIdsOf tables.now ids.now }
        requires stop_times { AreStopTimes tables.now stop_times }
        ensures { IfOk result (AreStopTimesOf tables.now) }
    {
        StopTimesDraft::of(alloc, random, tables, ids, stop_times.into_headsigned())
    }

    // The same of stop times of which none has been given a headsign. The trips after that of the
    // last stop time begin at the end.
    pub(crate) fn of(
        alloc: Global,
        random: RandomState,
        tables: &Tables,
        ids: &NetworkIds<'_>,
        stop_times: HeadsignedStopTimes,
    ) -> Result<StopTimesDraft, OutOfMemory>
        requires passes { Passes tables.now }
        requires ids { AreNetworkIdsOf tables.now ids.now }
        requires stop_times { AreStopTimes tables.now stop_times.left }
        requires none_given { stop_times.rows ≡ [] }
        ensures { IfOk result (AreStopTimesOf tables.now) }
    {
        let mut gathered = Gathered::new(alloc, random, stop_times, ids.trips.len())?;
        gathered.push_all(tables)?;
        let Gathered {
            trips,
            stop_times,
            mut starts,
            headsigns,
        } = gathered;
        begin(&mut starts, trips, stop_times.len())?;
        Ok(StopTimesDraft {
            stop_times,
            starts: List::new(starts),
            headsigns: headsigns.into_list()?,
        })
    }

    /// The stop times of a feed. Where the rows of each trip follow each other in the file, they
    /// stay where they are. Else they are copied.
    ///
    /// # Errors
    /// `OutOfMemory` where memory is refused.
    pub fn into_stop_times(self) -> Result<StopTimes, OutOfMemory>
        ensures { IfOk result (λ lists. lists ≡ self) }
    {
        let StopTimesDraft {
            stop_times,
            starts,
            headsigns,
        } = self;
        Ok(StopTimes {
            stop_times: stop_times.into_by_trip(starts)?,
            headsigns,
        })
    }
}
