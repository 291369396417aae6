ghost use Rattle.std.specs.Prelude.{◌≡◌, ◌≤◌, ◌+◌, ◌*◌, ◌++◌, [], pos, negsuc, ◌+ℤ◌, ◌-ℤ◌, ◌*ℤ◌, ◌≤ℤ◌, ◌<ℤ◌, OnOk, IfOk, IsTrue, false, ◌||◌, int_lt};
ghost use Rattle.std.specs.Option.{option_to_list};
ghost use Rattle.gtfs_days.specs.Service.{first_service_day, last_service_day, service_days};
ghost use Rattle.gtfs_days.specs.Zone.{zone_origin};
ghost use Rattle.gtfs_board.specs.Board.{low_mark, origin_distance};
ghost use Rattle.gtfs_board.specs.UpcomingDays.{count_of, events_of};
ghost use Rattle.gtfs_board.specs.upcoming.QueueOrder.{Each};
ghost use Rattle.gtfs_board.specs.upcoming.OpenedLanes.{IsFrom, IsStopped, AreStepsFew};
ghost use Rattle.gtfs_board.specs.upcoming.Candidates.{AreGathered, AreHeadsAbove, AreWithinLeast, IsAside, heads_on, least_from, with_head};

use crate::service_days::Days;
use crate::upcoming::candidate::Candidate;
use crate::upcoming::queue::Queue;
use gtfs_days::{FIRST_SERVICE_DAY, LAST_SERVICE_DAY};
use gtfs_field::OutOfMemory;
use gtfs_runs::Steps;

// The seconds of a day on which no clock changes.
const SECONDS_OF_DAY: i64 = 86_400;

// How far the origin of a service day can lie from midnight UTC of its date, in seconds.
const ORIGIN_DISTANCE: i64 = 93_599;

// What waits beside the queue and its new head once days were opened.
#[derive(Drop)]
pub struct Gathered {
    pub fresh: Vec<Candidate>,
    // The first day that is not opened.
    pub day: i32,
    // The least instant that waits, or the end.
    pub least: i64,
}

// Opens days until no unopened one can hold a departure at or below the least.
pub(super) fn gather(
    days: &Days<'_>,
    queue: &Queue,
    head: Option<Candidate>,
    floor: &Candidate,
    mut day: i32,
    steps: &mut Steps,
) -> Result<Gathered, OutOfMemory>
    requires ended { Each (λ c. c.instant ≤ℤ days.now.end) queue.now }
    requires heads { AreHeadsAbove (events_of days.now) floor.now day (with_head queue.now head) }
    requires within { AreWithinLeast days.now.end (with_head queue.now head) }
    requires aside { IsAside floor.now day (count_of days.now) }
    requires from { first_service_day ≤ℤ day }
    requires to { day ≤ℤ (last_service_day +ℤ pos 1) }
    ensures gathered { IfOk result (λ r. AreGathered (events_of days.now) floor.now
        days.now.end (with_head queue.now head) r.fresh.items r.day r.least) }
    ensures stopped { IfOk result (λ r. IsStopped last_service_day r.day r.least) }
    ensures range { IfOk result (λ r. (day ≤ℤ r.day) × (r.day ≤ℤ (last_service_day +ℤ pos 1))) }
    ensures steps { IfOk result (λ r. AreStepsFew (count_of days.now) last_service_day service_days
        steps.old day (least_from days.now.end (with_head queue.now head))
        steps.new r.day r.least) }
{
    let mut fresh = Vec::new(days.alloc);
    let waiting = least_waiting(queue, days.end);
    let mut least = least_with(waiting, head);
    while is_due(day, least) {
        least = open_day(days, day, floor, &mut fresh, least, steps)?;
        day = days.next_day(day + 1);
    }
    Ok(Gathered { fresh, day, least })
}

// The least instant that waits, or the end.
fn least_waiting(queue: &Queue, end: i64) -> i64
    requires { Each (λ c. c.instant ≤ℤ end) queue.now }
    ensures { result ≡ least_from end queue.now }
{
    match queue.first() {
        Some(first) => first.instant,
        None => end,
    }
}

// The heads of all lanes on a day join those that wait, and the least instant so far is answered.
// The origin of the day is asked for once, and no lane on a day that has no head.
fn open_day(
    days: &Days<'_>,
    day: i32,
    floor: &Candidate,
    fresh: &mut Vec<Candidate>,
    least: i64,
    steps: &mut Steps,
) -> Result<i64, OutOfMemory>
    requires from { first_service_day ≤ℤ day }
    requires to { day ≤ℤ last_service_day }
    requires aside { IsAside floor.now day (count_of days.now) }
    ensures heads { OnOk result (fresh.new.items
        ≡ fresh.old.items ++ heads_on (events_of days.now) floor.now day (count_of days.now)) }
    ensures least { IfOk result (λ t. t
        ≡ least_from least (heads_on (events_of days.now) floor.now day (count_of days.now))) }
    ensures steps { OnOk result (steps.new ≤ steps.old + count_of days.now) }
{
    let origin = days.origin(day)?;
    if is_idle(origin, days.lanes.greatest(), days.end, floor.instant) {
        return Ok(least);
    }
    ask_lanes(days, day, origin, floor, fresh, least, steps)
}

// Whether a day with this origin has no departure above a floor: it begins past the end, or its
// latest one lies below the floor. Its date alone tells that only of days that lie further away.
fn is_idle(origin: i64, latest: u32, end: i64, floor: i64) -> bool
    ensures { result ≡ (int_lt end origin || int_lt (origin +ℤ pos latest) floor) }
{
    origin > end || floor.saturating_sub(origin) > i64::from(latest)
}

// The heads of all lanes on a day with this origin join those that wait.
fn ask_lanes(
    days: &Days<'_>,
    day: i32,
    origin: i64,
    floor: &Candidate,
    fresh: &mut Vec<Candidate>,
    mut least: i64,
    steps: &mut Steps,
) -> Result<i64, OutOfMemory>
    requires from { first_service_day ≤ℤ day }
    requires to { day ≤ℤ last_service_day }
    requires origin { origin ≡ zone_origin days.now.zone.now day }
    requires aside { IsAside floor.now day (count_of days.now) }
    ensures heads { OnOk result (fresh.new.items
        ≡ fresh.old.items ++ heads_on (events_of days.now) floor.now day (count_of days.now)) }
    ensures least { IfOk result (λ t. t
        ≡ least_from least (heads_on (events_of days.now) floor.now day (count_of days.now))) }
    ensures steps { OnOk result (steps.new ≤ steps.old + count_of days.now) }
{
    fresh.reserve(days.count())?;
    let mut serves = false;
    for lane in 0..days.count() {
        serves = days.serves(lane, day, serves);
        if !serves {
            continue;
        }
        let head = days.head(lane, day, origin, floor, steps);
        least = keep(fresh, head, least)?;
    }
    Ok(least)
}

// A head, if there is one, joins those that wait, and the least instant so far is answered.
fn keep(fresh: &mut Vec<Candidate>, head: Option<Candidate>, least: i64) -> Result<i64, OutOfMemory>
    ensures heads { OnOk result (fresh.new.items ≡ fresh.old.items ++ option_to_list head) }
    ensures least { IfOk result (λ t. t ≡ least_from least (option_to_list head)) }
{
    if let Some(head) = head {
        fresh.push(head)?;
    }
    Ok(least_with(least, head))
}

// The least instant so far and that of a head, if there is one.
fn least_with(least: i64, head: Option<Candidate>) -> i64
    ensures { result ≡ least_from least (option_to_list head) }
{
    match head {
        Some(head) => least.min(head.instant),
        None => least,
    }
}

// A day that is not past the last may hold a departure at or below the mark.
fn is_due(day: i32, least: i64) -> bool
    ensures due { IsTrue result → (day ≤ℤ last_service_day)
        × ((day *ℤ pos 86_400) ≤ℤ (least +ℤ pos origin_distance)) }
    ensures stopped { result ≡ false → IsStopped last_service_day day least }
{
    day <= LAST_SERVICE_DAY && earliest(day) <= least
}

// No departure of a day comes before this instant.
fn earliest(day: i32) -> i64
    ensures { (result +ℤ pos origin_distance) ≡ day *ℤ pos 86_400 }
{
    i64::from(day) * SECONDS_OF_DAY - ORIGIN_DISTANCE
}

// The first day with departures that can hold one above a floor:
// the one after the last where there is none.
pub(super) fn first_due(days: &Days<'_>, floor: &Candidate) -> i32
    requires { negsuc 999_999_999_999 ≤ℤ floor.now.instant }
    ensures heads { AreHeadsAbove (events_of days.now) floor.now result [] }
    ensures low { IsFrom (low_mark days.now.lanes.greatest floor.now.instant) last_service_day
        result }
    ensures from { first_service_day ≤ℤ result }
    ensures to { result ≤ℤ (last_service_day +ℤ pos 1) }
{
    let begun = first_begun(low_mark(floor.instant, days.lanes.greatest()));
    let first = i64::from(FIRST_SERVICE_DAY);
    let past = i64::from(LAST_SERVICE_DAY) + 1;
    days.next_day(begun.clamp(first, past) as i32)
}

// A day whose date begins before this instant has no departure at or above the start.
fn low_mark(start: i64, latest: u32) -> i64
    requires { negsuc 999_999_999_999 ≤ℤ start }
    ensures { result ≡ low_mark latest start }
{
    start - i64::from(latest) - ORIGIN_DISTANCE
}

// The first day whose date begins at or after an instant.
fn first_begun(instant: i64) -> i64
    requires { negsuc 1_999_999_999_999 ≤ℤ instant }
    ensures from { instant ≤ℤ (result *ℤ pos 86_400) }
    ensures least { (result *ℤ pos 86_400) <ℤ (instant +ℤ pos 86_400) }
{
    (instant - 1).div_euclid(SECONDS_OF_DAY) + 1
}
