ghost use Rattle.std.specs.Prelude.{◌≡◌, ◌==◌, length};

use crate::event::Event;
use crate::lane::Lane;
use crate::list_lane::ListLane;
use crate::moment::Moment;
use crate::steps::Steps;
use gtfs_feed::Feed;
use gtfs_rows::ServiceNo;

/// The events of trips without frequencies that have one list of stops and one service, at one
/// position in that list, of which one at least is at a stop time that has no time of its own.
#[derive(Drop)]
pub struct FilledLane {
    list: ListLane,
}

impl Lane for FilledLane {
    ghost serves = { λ lane. lane.list.service.0 };

    ghost events = { λ lane. lane.list.events };

    ghost ascending = { λ lane. lane.list.ascending };

    fn service(&self) -> ServiceNo {
        self.list.service()
    }

    fn first_above(&self, feed: &Feed, moment: &Moment, steps: &mut Steps) -> Option<Event> {
        self.list.first_above(feed, moment, steps)
    }

    fn next(&self, feed: &Feed, event: &Event, steps: &mut Steps) -> Option<Event> {
        self.list.next(feed, event, steps)
    }
}

impl FilledLane {
    /// Whether it has one event alone. It is told without a look at the events, and is no step.
    pub fn is_single(&self) -> bool
        ensures { result ≡ (length self.now.list.events == 1) }
    {
        self.list.is_single()
    }

    // The lane of a list.
    pub(crate) fn new(list: ListLane) -> FilledLane
        ensures { result.list ≡ list }
    {
        FilledLane { list }
    }
}
