//! The departures of the lanes of a stop, day by day.
ghost use Rattle.std.specs.Prelude.{◌≡◌, ◌<◌, ◌≤◌, ◌+◌, ◌-◌, ℕ, ℤ, [], length, pos, negsuc, ◌+ℤ◌, ◌≤ℤ◌, ◌<ℤ◌, false, true, IfOk, IsTrue, None, Some, option_map, slice_get, if◌then◌else◌};
ghost use Rattle.gtfs_days.specs.Service.{first_service_day, last_service_day};
ghost use Rattle.gtfs_days.specs.Zone.{zone_origin};
ghost use Rattle.gtfs_runs.specs.StopLanes.{lanes_of};
ghost use Rattle.gtfs_board.specs.LaneDays.{AreAscending, AreTimely, HaveServices, any_value, departing, ends_by, event_of, lane_at, serves_on};

mod any_lane;
mod seeking;

use crate::service_days::any_lane::AnyLane;
use crate::upcoming::Candidate;
use gtfs_days::{FIRST_SERVICE_DAY, LAST_SERVICE_DAY, Service, Zone};
use gtfs_field::{Day, OutOfMemory};
use gtfs_rows::TripNo;
use gtfs_runs::{Event, Feed, Steps, StopLanes};
use seeking::moment_from;
use std::alloc::Global;

// The departures of the lanes of a stop on each service day, up to an instant.
#[derive(Drop)]
pub(crate) struct Days<'a> {
    pub alloc: Global,
    pub feed: &'a Feed,
    pub zone: &'a Zone,
    // First the lanes of lists, then those of periods, and then those with a time that was filled.
    pub lanes: StopLanes,
    // The last instant.
    pub end: i64,
    pub ghost served: { HaveServices feed.now lanes },
    pub ghost ascending: { AreAscending lanes },
    pub ghost timely: { AreTimely lanes },
}

impl Days<'_> {
    ghost use Rattle.gtfs_board.specs.UpcomingDays.{count_of, events_of, serves_in};
    ghost use Rattle.gtfs_board.specs.upcoming.Candidates.{IsAside, first_above, slot_of};
    ghost use Rattle.gtfs_board.specs.upcoming.QueueOrder.{In};

    // How many lanes there are.
    pub(crate) fn count(&self) -> usize
        ensures { result ≡ count_of self.now }
    {
        self.lanes.lists().len() + self.lanes.periods().len() + self.lanes.filled().len()
    }

    // The first day from this one on on which a service of the lanes runs:
    // the one after the last where there is none.
    pub(crate) fn next_day(&self, day: i32) -> i32
        requires { day ≤ℤ (last_service_day +ℤ pos 1) }
        ensures up { day ≤ℤ result }
        ensures within { result ≤ℤ (last_service_day +ℤ pos 1) }
        ensures skips { (i : ℕ) (d : ℤ) → day ≤ℤ d → d <ℤ result → events_of self.now i d ≡ [] }
    {
        let mut first = LAST_SERVICE_DAY + 1;
        for lane in 0..self.count() {
            // Lanes of one service stand together, so most services are asked once.
            if self.repeats_service(lane) {
                continue;
            }
            first = first.min(self.next_active(lane, day));
            // No day comes earlier.
            if first == day {
                return day;
            }
        }
        first
    }

    // The origin of a service day, which its lanes share.
    pub(crate) fn origin(&self, day: i32) -> Result<i64, OutOfMemory>
        requires from { first_service_day ≤ℤ day }
        requires to { day ≤ℤ last_service_day }
        ensures { IfOk result (λ o. o ≡ zone_origin self.now.zone.now day) }
    {
        self.zone.origin(self.alloc, Day::from_number(day))
    }

    // Whether the service of a lane runs on a service day, where that is told of the lane before:
    // lanes of one service stand together, so that most services are asked once.
    pub(crate) fn serves(&self, lane: usize, day: i32, before: bool) -> bool
        requires inside { lane < count_of self.now }
        requires from { first_service_day ≤ℤ day }
        requires to { day ≤ℤ last_service_day }
        requires before { 0 < lane → before ≡ serves_in self.now (lane - 1) day }
        ensures { result ≡ serves_in self.now lane day }
    {
        if !self.repeats_service(lane) {
            return self.service(lane).active(Day::from_number(day));
        }
        before
    }

    // The first departure of a lane above a floor, on a day with this origin on which its service
    // runs. The floor lies on an earlier day or belongs to no lane. It asks the lane once.
    pub(crate) fn head(
        &self,
        lane: usize,
        day: i32,
        origin: i64,
        floor: &Candidate,
        steps: &mut Steps,
    ) -> Option<Candidate>
        requires inside { lane < count_of self.now }
        requires aside { IsAside floor.now day (count_of self.now) }
        requires runs { serves_in self.now lane day ≡ true }
        requires origin { origin ≡ zone_origin self.now.zone.now day }
        ensures first { result ≡ first_above floor.now (events_of self.now lane day) }
        ensures steps { steps.new ≤ steps.old + 1 }
    {
        let moment = moment_from(floor, origin, day);
        match self.lane(lane).first_above(self.feed, &moment, steps) {
            Some(event) => self.by_end(departing(origin, day, lane, event)),
            None => None,
        }
    }

    // The departure after one, in its lane on its day. It may ask the lane once.
    pub(crate) fn after(&self, departure: &Candidate, steps: &mut Steps) -> Option<Candidate>
        requires { In departure.now (slot_of (events_of self.now) departure.now) }
        ensures next { result
            ≡ first_above departure.now (slot_of (events_of self.now) departure.now) }
        ensures steps { steps.new ≤ steps.old + 1 }
    {
        // The event of a lane of one lies far away in memory, and no other comes after it.
        if self.lane(departure.lane).is_single() {
            return None;
        }
        let origin = departure.instant - i64::from(departure.at);
        let lane = self.lane(departure.lane);
        match lane.next(self.feed, &event_of(departure), steps) {
            Some(event) => self.by_end(departing(origin, departure.day, departure.lane, event)),
            None => None,
        }
    }

    // A lane by its index.
    fn lane(&self, lane: usize) -> AnyLane<'_>
        requires { lane < length (lanes_of self.now.lanes) }
        ensures { any_value result ≡ lane_at self.now.lanes lane }
    {
        let lists = self.lanes.lists();
        let periods = self.lanes.periods();
        if lane < lists.len() {
            return AnyLane::List(&lists[lane]);
        }
        let past = lane - lists.len();
        if past < periods.len() {
            return AnyLane::Period(&periods[past]);
        }
        AnyLane::Filled(&self.lanes.filled()[past - periods.len()])
    }

    // The service of a lane.
    fn service(&self, lane: usize) -> &Service
        requires { lane < length (lanes_of self.now.lanes) }
        ensures { option_map (λ s. s.service)
            (slice_get self.now.feed.now.services (lane_at self.now.lanes lane).service)
            ≡ Some result.now }
    {
        self.feed.service_by_number(self.lane(lane).service())
    }

    // Whether a lane has the service of the lane before it.
    fn repeats_service(&self, lane: usize) -> bool
        requires { lane < length (lanes_of self.now.lanes) }
        ensures { IsTrue result → (0 < lane) × ((lane_at self.now.lanes lane).service
            ≡ (lane_at self.now.lanes (lane - 1)).service) }
    {
        lane > 0 && self.lane(lane).service().0 == self.lane(lane - 1).service().0
    }

    // The first day from this one on on which the service of a lane runs:
    // the one after the last where there is none.
    fn next_active(&self, lane: usize, day: i32) -> i32
        requires lane { lane < length (lanes_of self.now.lanes) }
        requires day { day ≤ℤ (last_service_day +ℤ pos 1) }
        ensures up { day ≤ℤ result }
        ensures within { result ≤ℤ (last_service_day +ℤ pos 1) }
        ensures skips { (d : ℤ) → day ≤ℤ d → d <ℤ result
            → serves_on self.now.feed.now (lane_at self.now.lanes lane).service d ≡ false }
    {
        let from = Day::from_number(day.max(FIRST_SERVICE_DAY));
        match self.service(lane).next_active(from) {
            Some(next) => next.number(),
            None => LAST_SERVICE_DAY + 1,
        }
    }

    // The departure, if it lies at or before the end.
    fn by_end(&self, departure: Candidate) -> Option<Candidate>
        ensures { result ≡ (if ends_by self.now.end departure then Some departure else None) }
    {
        if departure.instant <= self.end {
            Some(departure)
        } else {
            None
        }
    }
}

// The departure that an event of a lane is on a day with this origin.
fn departing(origin: i64, day: i32, lane: usize, event: Event) -> Candidate
    requires low { negsuc 999_999_999_999 ≤ℤ origin }
    requires high { origin ≤ℤ pos 999_999_999_999 }
    ensures { result ≡ departing origin day lane event }
{
    Candidate {
        instant: origin + i64::from(event.at),
        trip: event.trip.0,
        lane,
        row: event.row,
        run: event.run,
        sequence: event.seq,
        day,
        at: event.at,
    }
}

// The event of its lane that a departure is.
fn event_of(departure: &Candidate) -> Event
    ensures { result ≡ event_of departure.now }
{
    Event {
        at: departure.at,
        trip: TripNo(departure.trip),
        run: departure.run,
        seq: departure.sequence,
        row: departure.row,
    }
}
