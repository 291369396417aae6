ghost use Rattle.std.specs.Prelude.{◌≡◌};
ghost use Rattle.gtfs_runs.specs.EventOrder.{is_later};

use gtfs_rows::TripNo;

/// A run of a trip that passes a row at which riders can leave a stop.
///
/// Events are ordered by time, trip, run, sequence and row;
/// the numbers of trips follow the bytes of their ids.
#[derive(Clone, Copy, Debug, PartialEq, Eq, PartialOrd, Ord)]
pub struct Event {
    /// When it passes the row, in seconds from the origin of its service day: 0 to 7,199,997.
    pub at: u32,
    /// The trip.
    pub trip: TripNo,
    /// The second at which the run starts, 0 to 3,599,999.
    pub run: u32,
    /// `stop_sequence` of the row.
    pub seq: u32,
    /// The row's position among the stop times of the trip, from 0.
    pub row: usize,
}

impl Event {
    /// Whether another event lies above.
    pub fn is_below(&self, other: &Event) -> bool
        ensures { result ≡ is_later self.now other.now }
    {
        self < other
    }
}
