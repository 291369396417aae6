ghost use Rattle.std.specs.Prelude.{◌≡◌, ◌==◌, length};
ghost use Rattle.std.specs.List.{slice_get};
ghost use Rattle.gtfs_rows.specs.TransferOrder.{Ascends};
ghost use Rattle.gtfs_runs.specs.EventOrder.{event_cmp};
ghost use Rattle.gtfs_runs.specs.steps.LatestOfLists.{latest_of};

use crate::event::Event;
use crate::event_range::EventRange;
use crate::lane::Lane;
use crate::moment::Moment;
use crate::steps::Steps;
use gtfs_feed::Feed;
use gtfs_rows::ServiceNo;

/// The events of trips without frequencies that have one list of stops and one service,
/// at one position in that list.
#[derive(Drop)]
pub struct ListLane {
    service: ServiceNo,
    events: EventRange,
    ghost ascending: { Ascends event_cmp events },
}

impl Lane for ListLane {
    ghost serves = { λ lane. lane.service.0 };

    ghost events = { λ lane. lane.events };

    ghost ascending = { λ lane. lane.ascending };

    fn service(&self) -> ServiceNo {
        self.service
    }

    fn first_above(&self, _feed: &Feed, moment: &Moment, steps: &mut Steps) -> Option<Event> {
        steps.add_one();
        let index = self
            .as_slice()
            .partition_point(|event| !moment.is_below(event));
        self.event(index)
    }

    fn next(&self, _feed: &Feed, event: &Event, steps: &mut Steps) -> Option<Event> {
        steps.add_one();
        let index = self
            .as_slice()
            .partition_point(|other| !event.is_below(other));
        self.event(index)
    }
}

impl ListLane {
    // The lane of these events.
    pub(crate) fn new(service: ServiceNo, events: EventRange) -> ListLane
        requires { Ascends event_cmp events }
        ensures service { result.service ≡ service }
        ensures events { result.events ≡ events }
    {
        ListLane { service, events }
    }

    /// Whether it has one event alone. It is told without a look at the events, and is no step.
    pub fn is_single(&self) -> bool
        ensures { result ≡ (length self.now.events == 1) }
    {
        self.events.len() == 1
    }

    // The time of the last event, 0 where there is none.
    pub(crate) fn latest(&self) -> u32
        ensures { result ≡ latest_of self.now.events }
    {
        match self.as_slice().last() {
            Some(event) => event.at,
            None => 0,
        }
    }

    // The events of the list.
    pub(crate) fn as_slice(&self) -> &[Event]
        ensures { result.now ≡ self.now.events }
    {
        self.events.as_slice()
    }

    // The event at an index of the list, if there is one.
    fn event(&self, index: usize) -> Option<Event>
        ensures { result ≡ slice_get self.now.events index }
    {
        self.as_slice().get(index).copied()
    }
}
