ghost use Rattle.std.specs.Prelude.{◌≡◌, ◌≤◌, ◌+◌, IsTrue, find, length};
ghost use Rattle.gtfs_runs.specs.EventOrder.{is_above_moment, is_later};
ghost use Rattle.gtfs_board.specs.LaneDays.{any_value};

use gtfs_rows::ServiceNo;
use gtfs_runs::{Event, Feed, FilledLane, Lane, ListLane, Moment, StepLane, Steps};

// A lane of one of the kinds that a stop has.
#[derive(Clone, Copy)]
pub(super) enum AnyLane<'a> {
    List(&'a ListLane),
    Period(&'a StepLane),
    Filled(&'a FilledLane),
}

impl AnyLane<'_> {
    // The service of its trips.
    pub(super) fn service(self) -> ServiceNo
        ensures { result.0 ≡ (any_value self.entry).service }
    {
        match self {
            AnyLane::List(lane) => lane.service(),
            AnyLane::Period(lane) => lane.service(),
            AnyLane::Filled(lane) => lane.service(),
        }
    }

    // Its first event above a position.
    pub(super) fn first_above(
        self,
        feed: &Feed,
        moment: &Moment,
        steps: &mut Steps,
    ) -> Option<Event>
        ensures first { result ≡ find (is_above_moment moment.now) (any_value self.entry).events }
        ensures steps { steps.new ≤ steps.old + 1 }
    {
        match self {
            AnyLane::List(lane) => lane.first_above(feed, moment, steps),
            AnyLane::Period(lane) => lane.first_above(feed, moment, steps),
            AnyLane::Filled(lane) => lane.first_above(feed, moment, steps),
        }
    }

    // Whether it has one event alone, as far as that is known without its events.
    pub(super) fn is_single(self) -> bool
        ensures { IsTrue result → length (any_value self.entry).events ≡ 1 }
    {
        match self {
            AnyLane::List(lane) => lane.is_single(),
            AnyLane::Filled(lane) => lane.is_single(),
            AnyLane::Period(_) => false,
        }
    }

    // Its first event above another.
    pub(super) fn next(self, feed: &Feed, event: &Event, steps: &mut Steps) -> Option<Event>
        ensures next { result ≡ find (is_later event.now) (any_value self.entry).events }
        ensures steps { steps.new ≤ steps.old + 1 }
    {
        match self {
            AnyLane::List(lane) => lane.next(feed, event, steps),
            AnyLane::Period(lane) => lane.next(feed, event, steps),
            AnyLane::Filled(lane) => lane.next(feed, event, steps),
        }
    }
}
