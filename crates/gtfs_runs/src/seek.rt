ghost use Rattle.std.specs.Prelude.{◌≡◌, ◌<◌, length};
ghost use Rattle.gtfs_runs.specs.EventOrder.{is_above_moment, is_above_seek};
ghost use Rattle.gtfs_runs.specs.declared.event.Event.{Event};

use crate::moment::Moment;
use crate::trips::trips_below;
use gtfs_feed::Feed;
use gtfs_rows::TripNo;

/// A position from which a lane is asked:
/// events lie above it by time, the trip's id byte by byte, run and sequence.
///
/// It may lie before the origin of a service day and past every event, and it need not be that of
/// an event: the id may be one that no trip has.
#[derive(Clone, Copy, Debug)]
pub struct Seek<'a> {
    /// Seconds from the origin of the service day.
    pub at: i64,
    /// `trip_id` of a trip, or any other text.
    pub trip: &'a str,
    /// The second at which a run starts.
    pub run: u32,
    /// A `stop_sequence`, or less than 0 for what lies before each.
    pub seq: i64,
}

impl Seek<'_> {
    /// The same position with the trip's number: the same events of a feed's trips lie above it.
    pub fn moment(&self, feed: &Feed) -> Moment
        ensures { (e : Event) → e.trip.0 < length feed.now.trips
            → is_above_moment result e ≡ is_above_seek feed.now self.now e }
    {
        feed.soundness();
        match feed.trip(self.trip) {
            Some(trip) => Moment {
                at: self.at,
                trip,
                run: self.run,
                seq: self.seq,
            },
            None => Moment {
                at: self.at,
                trip: TripNo(trips_below(feed, self.trip)),
                run: 0,
                seq: -1,
            },
        }
    }
}
