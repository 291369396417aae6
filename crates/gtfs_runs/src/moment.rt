ghost use Rattle.std.specs.Prelude.{◌≡◌};
ghost use Rattle.gtfs_runs.specs.EventOrder.{is_above_moment};

use crate::event::Event;
use gtfs_rows::TripNo;

/// A position from which a lane is asked, with the trip's number:
/// events lie above it by time, trip, run and sequence.
///
/// It may lie before the origin of a service day and past every event, and it need not be
/// that of an event. The number of the first trip with a greater id, run 0 and sequence -1
/// stand for an id that no trip has.
#[derive(Clone, Copy, Debug)]
pub struct Moment {
    /// Seconds from the origin of the service day.
    pub at: i64,
    /// The number of a trip, or any other number.
    pub trip: TripNo,
    /// The second at which a run starts.
    pub run: u32,
    /// A `stop_sequence`, or less than 0 for what lies before each.
    pub seq: i64,
}

impl Moment {
    /// Whether the event lies above.
    pub fn is_below(&self, event: &Event) -> bool
        ensures { result ≡ is_above_moment self.now event.now }
    {
        self.at
            .cmp(&i64::from(event.at))
            .then(self.trip.cmp(&event.trip))
            .then(self.run.cmp(&event.run))
            .then(self.seq.cmp(&i64::from(event.seq)))
            .is_lt()
    }
}
