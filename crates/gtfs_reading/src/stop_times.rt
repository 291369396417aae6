ghost use Rattle.std.specs.Prelude.{IfOk};
ghost use Rattle.gtfs_reading.specs.StopTimeLists.{AreStopTimesOf};

use crate::draft::StopTimesDraft;
use gtfs_field::{List, OutOfMemory, Text};
use gtfs_rows::StopTimesByTrip;
use gtfs_rules::Passed;
use std::alloc::Global;
use std::hash::RandomState;

/// The stop times of a dataset, as [`gtfs_rows::Parts`] has them (GTFS Schedule Reference,
/// `stop_times.txt`).
#[derive(Drop)]
pub struct StopTimes {
    /// The stop times of all trips, also of those that have none.
    pub stop_times: StopTimesByTrip,
    /// The headsigns that stop times name by their numbers, each once, in the order in which the
    /// stop times first name them, trip after trip. A control character is a space.
    pub headsigns: List<Text>,
}

impl StopTimes {
    /// The stop times of a dataset that passed.
    ///
    /// Each field was read when the dataset was checked. Only headsigns are read of the tables
    /// here, and no row where the file has no such column. Headsigns are hashed by the random
    /// state, on which the lists do not depend.
    ///
    /// # Errors
    /// `OutOfMemory` where memory is refused,
    /// and where there are more than 4,294,967,295 different headsigns.
    pub fn new(
        alloc: Global,
        random: RandomState,
        passed: &Passed<'_>,
    ) -> Result<StopTimes, OutOfMemory>
        ensures { IfOk result (AreStopTimesOf passed.now) }
    {
        let ids = &passed.ids().network;
        let stop_times = passed.stop_times().to_headsigned(alloc)?;
        StopTimesDraft::of(alloc, random, passed.tables(), ids, stop_times)?.into_stop_times()
    }
}
