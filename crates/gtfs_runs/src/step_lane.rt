ghost use Rattle.std.specs.Prelude.{◌≡◌, ◌≤◌, ◌<◌, ◌+◌, ◌*◌, ◌-◌, ◌/◌, ◌^◌, Bool, Some, None, if◌then◌else◌, cond, nat_lt, pos, ◌+ℤ◌, ◌≤ℤ◌, ◌<ℤ◌};
ghost use Rattle.std.specs.List.{find};
ghost use Rattle.gtfs_runs.specs.declared.event.Event.{Event as EventValue};
ghost use Rattle.gtfs_rows.specs.TransferOrder.{Ascends};
ghost use Rattle.gtfs_runs.specs.EventOrder.{event_cmp, IsFrom, first_of_two, is_same};
ghost use Rattle.gtfs_rows.specs.RowsInMemory.{frequency_of};
ghost use Rattle.gtfs_runs.specs.Tallies.{tally};
ghost use Rattle.gtfs_runs.specs.steps.LatestOfLists.{latest_of};
ghost use Rattle.gtfs_runs.specs.PeriodRuns.{is_of_period, run_event, run_events};

use crate::event::Event;
use crate::lane::Lane;
use crate::moment::Moment;
use crate::steps::Steps;
use gtfs_feed::Feed;
use gtfs_rows::{Frequency, ServiceNo};

/// The events of one row of `frequencies.txt` at one stop time of its trip:
/// one for each run of the period.
///
/// However many runs there are, it has a few dozen bytes, and a run is found by arithmetic.
#[derive(Clone, Copy)]
pub struct StepLane {
    service: ServiceNo,
    // The event of the first run.
    first: Event,
    // Seconds between runs.
    headway: u32,
    // How many runs there are.
    count: u32,
    ghost moves: { 0 < headway },
    ghost within: { first.at + count * headway ≤ 7_199_999 + headway },
    ghost starts: { first.run ≤ first.at },
    ghost ascending: { Ascends event_cmp (run_events first headway count) },
}

impl Lane for StepLane {
    ghost serves = { λ lane. lane.service.0 };

    ghost events = { λ lane. run_events lane.first lane.headway lane.count };

    ghost ascending = { λ lane. lane.ascending };

    fn service(&self) -> ServiceNo {
        self.service
    }

    fn first_above(&self, _feed: &Feed, moment: &Moment, steps: &mut Steps) -> Option<Event> {
        steps.add_one();
        let (first, second) = self.two_from(moment.at);
        match first {
            Some(event) => if moment.is_below(&event) {
                first
            } else {
                second
            },
            None => second,
        }
    }

    fn next(&self, _feed: &Feed, event: &Event, steps: &mut Steps) -> Option<Event> {
        steps.add_one();
        let (first, second) = self.two_from(i64::from(event.at));
        match first {
            Some(other) => if event.is_below(&other) {
                first
            } else {
                second
            },
            None => second,
        }
    }
}

impl StepLane {
    // The lane of a period, of which this is the event of the first run.
    pub(crate) fn of_period(service: ServiceNo, first: Event, period: &Frequency) -> StepLane
        requires begins { first.run ≡ period.now.start_time }
        requires passes { first.run ≤ first.at }
        requires lasts { period.now.start_time < period.now.end_time }
        requires moves { 0 < period.now.headway_secs }
        requires within { first.at + period.now.end_time ≤ 7_200_000 + period.now.start_time }
        ensures serves { result.service ≡ service }
        ensures events { (e : EventValue)
            → tally (is_same e) (run_events result.first result.headway result.count)
            ≡ cond (is_of_period first (frequency_of period.now) e) 1 0 }
    {
        let seconds = period.end_time.seconds() - period.start_time.seconds();
        StepLane {
            service,
            first,
            headway: period.headway_secs,
            count: seconds.div_ceil(period.headway_secs),
        }
    }

    // The time of the last event, 0 where there is none.
    pub(crate) fn latest(&self) -> u32
        ensures { result ≡ latest_of (run_events self.now.first self.now.headway self.now.count) }
    {
        match self.event(u64::from(self.count).saturating_sub(1)) {
            Some(event) => event.at,
            None => 0,
        }
    }

    // The first event at or after a time, and the one after it.
    fn two_from(&self, at: i64) -> (Option<Event>, Option<Event>)
        ensures { (test : EventValue → Bool) → IsFrom at test
            → find test (run_events self.now.first self.now.headway self.now.count)
            ≡ first_of_two test result.0 result.1 }
    {
        let runs = runs_before(self.first.at, self.headway, at);
        (self.event(runs), self.event(runs + 1))
    }

    // The event of the run with this number, from 0.
    fn event(&self, run: u64) -> Option<Event>
        ensures { result ≡ (if nat_lt run self.now.count
            then Some (run_event self.now.first self.now.headway run) else None) }
    {
        if run >= u64::from(self.count) {
            return None;
        }
        let seconds = run as u32 * self.headway;
        Some(Event {
            at: self.first.at + seconds,
            run: self.first.run + seconds,
            ..self.first
        })
    }
}

// How many runs of a period pass before a time.
fn runs_before(first: u32, headway: u32, at: i64) -> u64
    requires { 0 < headway }
    ensures below { 0 < result → pos (first + result * headway) <ℤ (at +ℤ pos headway) }
    ensures from { at ≤ℤ pos (first + result * headway) }
    ensures small { result < 2 ^ 63 }
{
    let first = i64::from(first);
    if at <= first {
        return 0;
    }
    (at.abs_diff(first) - 1) / u64::from(headway) + 1
}
