ghost use Rattle.std.specs.Prelude.{◌≡◌, ◌+◌, ◌-◌, ◌^◌, ℕ, All, List, min};
ghost use Rattle.std.specs.List.{find};
ghost use Rattle.gtfs_rows.specs.TransferOrder.{Ascends};
ghost use Rattle.gtfs_runs.specs.EventOrder.{IsOfTrips, event_cmp, is_above_moment, is_above_seek, is_later};

use crate::event::Event;
use crate::moment::Moment;
use crate::seek::Seek;
use crate::steps::Steps;
use gtfs_feed::Feed;
use gtfs_rows::ServiceNo;

/// Events of trips of one service, in their order, of which a caller asks for one at a time.
///
/// The feed is the one that the lane was built from.
pub trait Lane {
    ghost use Rattle.gtfs_runs.specs.declared.event.Event.{Event};

    // The number of the service.
    ghost serves: { Self → ℕ };

    // The events, ascending.
    ghost events: { Self → List Event };

    /// The service of the trips.
    fn service(&self) -> ServiceNo
        ensures { result.0 ≡ serves self.now };

    /// The least event above a moment, and None exactly where there is none. It is one step.
    fn first_above(&self, feed: &Feed, moment: &Moment, steps: &mut Steps) -> Option<Event>
        ensures first { result ≡ find (is_above_moment moment.now) (events self.now) }
        ensures counted { steps.new ≡ min (steps.old + 1) (2 ^ 64 - 1) };

    /// The least event above a seek, and None exactly where there is none. It is one step.
    fn first_after(&self, feed: &Feed, seek: &Seek<'_>, steps: &mut Steps) -> Option<Event>
        ensures first { All (IsOfTrips feed.now) (events self.now)
            → result ≡ find (is_above_seek feed.now seek.now) (events self.now) }
        ensures counted { steps.new ≡ min (steps.old + 1) (2 ^ 64 - 1) }
    {
        self.first_above(feed, &seek.moment(feed), steps)
    }

    /// The least event above another, and None exactly where there is none. It is one step.
    fn next(&self, feed: &Feed, event: &Event, steps: &mut Steps) -> Option<Event>
        ensures next { result ≡ find (is_later event.now) (events self.now) }
        ensures counted { steps.new ≡ min (steps.old + 1) (2 ^ 64 - 1) };

    ghost ascending: { (lane : Self) → Ascends event_cmp (events lane) };
}
