ghost use Rattle.std.specs.Prelude.{◌≡◌, ◌<◌, ◌^◌, option_map, unsigned_abs, IfOk, IfSome};
ghost use Rattle.gtfs_field.specs.Kinds.{date_of};
ghost use Rattle.gtfs_days.specs.Zone.{zone_origin};
ghost use Rattle.gtfs_cli.specs.SharedOptions.{day_if_given, service_day};
ghost use Rattle.gtfs_cli.specs.BoardOptions.{after_at, instant_at, moment_of, IsSound};

use gtfs_days::{LAST_SERVICE_DAY, Zone};
use gtfs_field::{Day, OutOfMemory, read_date, read_instant};
use std::alloc::Global;

// When a board begins or ends.
#[derive(Clone, Copy)]
pub(crate) enum GivenMoment {
    // An instant, in seconds since 1970-01-01T00:00:00Z, of at most twelve digits.
    Instant(i64),
    // A service day, from 1900-01-01 to 9998-12-31, which stands for its origin in the zone.
    ServiceDay(Day),
}

// Reads the value of `--from` or `--until`: `@` and an instant, or a service day YYYYMMDD.
// None where the text is neither.
pub(crate) fn read_moment(text: &str) -> Option<GivenMoment>
    ensures value { result ≡ moment_of text.now }
    ensures sound { IfSome result IsSound }
{
    match after_at(text) {
        Some(instant) => Some(GivenMoment::Instant(read_instant(instant).ok()?)),
        None => Some(GivenMoment::ServiceDay(read_service_day(text)?)),
    }
}

// What follows an `@` at the beginning.
fn after_at(text: &str) -> Option<&str>
    ensures { option_map (λ t. t.now) result ≡ after_at text.now }
{
    text.strip_prefix('@')
}

// A date that is a service day.
pub(crate) fn read_service_day(text: &str) -> Option<Day>
    ensures { result ≡ service_day (date_of text.now) }
{
    let day = read_date(text).ok()?;
    if day.number() > LAST_SERVICE_DAY {
        return None;
    }
    Some(day)
}

// The same of a text that may be missing. None where it is there and is none.
pub(crate) fn read_day_if_given(text: Option<&str>) -> Option<Option<Day>>
    ensures { result ≡ day_if_given (option_map (λ t. t.now) text.entry) }
{
    match text {
        None => Some(None),
        Some(text) => match read_service_day(text) {
            Some(day) => Some(Some(day)),
            None => None,
        },
    }
}

impl GivenMoment {
    // The instant that is meant in the zone.
    // It takes no memory, so it never fails.
    pub(crate) fn instant(self, alloc: Global, zone: &Zone) -> Result<i64, OutOfMemory>
        requires { IsSound self }
        ensures value { IfOk result (λ x. x ≡ instant_at (zone_origin zone.now) self) }
        ensures short { IfOk result (λ x. unsigned_abs x < 10 ^ 12) }
    {
        match self {
            GivenMoment::Instant(instant) => Ok(instant),
            GivenMoment::ServiceDay(day) => zone.origin(alloc, day),
        }
    }
}
