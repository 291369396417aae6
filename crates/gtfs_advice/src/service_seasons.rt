//! How long a service goes on without a rest of two weeks.
ghost use Rattle.std.specs.Prelude.{◌≡◌, true, MatchOption, ℤ, pos, ◌+ℤ◌, ◌≤ℤ◌, ◌<ℤ◌};
ghost use Rattle.gtfs_days.specs.Service.{is_active, last_service_day};
ghost use Rattle.gtfs_advice.specs.ServiceSeasons.{GoesOn, IsNear, RestsFrom};

use gtfs_days::Service;
use gtfs_field::Day;

// The day from which on a service that runs on a day rests for two weeks or more.
pub(crate) fn day_after_season(service: &Service, from: Day) -> Day
    requires { is_active service.now from ≡ true }
    ensures goes_on { GoesOn (is_active service.now) from result }
    ensures rests { RestsFrom (is_active service.now) result }
{
    let mut last = from;
    while let Some(next) = next_in_season(service, last) {
        last = next;
    }
    days_after(last, 1)
}

// A later day on which the service runs, two weeks later at most, if there is one.
//
// Weeks are mostly alike, so the day two weeks later is tried first.
fn next_in_season(service: &Service, day: Day) -> Option<Day>
    requires { is_active service.now day ≡ true }
    ensures { MatchOption result (RestsFrom (is_active service.now) (day +ℤ pos 1))
        (IsNear (is_active service.now) day) }
{
    let fortnight = days_after(day, 14);
    if service.active(fortnight) {
        return Some(fortnight);
    }
    let next = service.next_active(days_after(day, 1))?;
    if next.number() <= fortnight.number() {
        Some(next)
    } else {
        None
    }
}

// The day so many days after one, up to two weeks after the last service day.
pub(crate) fn days_after(day: Day, count: i32) -> Day
    requires day { day ≤ℤ (last_service_day +ℤ pos 1) }
    requires from { pos 0 ≤ℤ count }
    requires to { count ≤ℤ pos 14 }
    ensures { result ≡ day +ℤ count }
{
    Day::from_number(day.number() + count)
}
