use crate::row_choices::ExactTimes;
use gtfs_field::Clock;

/// A row of `frequencies.txt`, without its trip (GTFS Schedule Reference, `frequencies.txt`).
///
/// Its *period* is the time from its start to its end, in which runs leave at each headway. So
/// names and texts speak of periods where the seconds of such a row count, as in the problems
/// *period empty* and *periods overlap*.
#[derive(Clone, Copy, Debug, PartialEq, Eq)]
pub struct Frequency {
    /// When the first run of the period leaves the trip's first stop.
    pub start_time: Clock,
    /// No run leaves then or later.
    pub end_time: Clock,
    /// Seconds between runs, 1 to 2,147,483,647.
    pub headway_secs: u32,
    pub exact_times: ExactTimes,
}
