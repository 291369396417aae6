//! The days on which something runs.
ghost use Rattle.std.specs.Prelude.{◌≡◌, true, OnOk, Bool, List, [], ◌∷◌, ◌++◌, ℤ, pos, ◌+ℤ◌, ◌≤ℤ◌, ◌<ℤ◌, ◌&&◌, if◌then◌else◌, int_le, int_lt};
ghost use Rattle.gtfs_days.specs.Service.{first_service_day, is_active, last_service_day};
ghost use Rattle.gtfs_advice.specs.ServiceSeasons.{RestsFrom};
ghost use Rattle.gtfs_advice.specs.ServedDays.{AreKnown, IsPart, IsQuiet, RunsOnServiceDays, gap_before};

use crate::service_seasons::{day_after_season, days_after};
use gtfs_days::{FIRST_SERVICE_DAY, Service};
use gtfs_field::{Day, OutOfMemory};
use std::alloc::Global;

// The days on which something runs, as far as they are known.
#[derive(Drop)]
pub(crate) struct ServedDays {
    // The first day of which nothing is known: the one after the last day on which something
    // runs, or the first service day.
    pub(crate) until: Day,
    // The days before it on which two weeks or more without service begin.
    pub(crate) gaps: Vec<Day>,
}

impl ServedDays {
    // No day is known.
    pub(crate) fn none(alloc: Global) -> ServedDays
        ensures known { (served : ℤ → Bool) → AreKnown served result }
        ensures until { result.until ≡ first_service_day }
    {
        ServedDays {
            until: Day::from_number(FIRST_SERVICE_DAY),
            gaps: Vec::new(alloc),
        }
    }

    // Goes on along a service that runs on a day, until it rests for two weeks or more. Nothing
    // runs between the known days and that one, if it comes after them.
    pub(crate) fn follow(&mut self, service: &Service, due: Day) -> Result<(), OutOfMemory>
        requires active { is_active service.now due ≡ true }
        requires until { self.old.until ≤ℤ (last_service_day +ℤ pos 1) }
        ensures known { OnOk result ((served : ℤ → Bool) → RunsOnServiceDays served
            → IsPart (is_active service.now) served
            → IsQuiet served self.old.until due → AreKnown served self.old
            → AreKnown served self.new) }
        ensures rests { OnOk result (RestsFrom (is_active service.now) self.new.until) }
        ensures past { OnOk result (due <ℤ self.new.until) }
        ensures onward { OnOk result (self.old.until ≤ℤ self.new.until) }
        ensures within { OnOk result (self.new.until ≤ℤ (last_service_day +ℤ pos 1)) }
    {
        if is_before(due, self.until) {
            self.catch_up(service);
            return Ok(());
        }
        self.note_gap(due)?;
        self.until = day_after_season(service, due);
        Ok(())
    }

    // Goes on along a service until it rests for two weeks or more. It may rest already.
    fn catch_up(&mut self, service: &Service)
        requires until { self.old.until ≤ℤ (last_service_day +ℤ pos 1) }
        ensures known { (served : ℤ → Bool) → IsPart (is_active service.now) served
            → AreKnown served self.old → AreKnown served self.new }
        ensures rests { RestsFrom (is_active service.now) self.new.until }
        ensures onward { self.old.until ≤ℤ self.new.until }
        ensures within { self.new.until ≤ℤ (last_service_day +ℤ pos 1) }
    {
        let Some(day) = service.next_active(self.until) else {
            return;
        };
        if is_before(day, days_after(self.until, 14)) {
            self.until = day_after_season(service, day);
        }
    }

    // Two weeks or more without service have begun if something ran before and nothing runs again
    // before this day.
    fn note_gap(&mut self, next: Day) -> Result<(), OutOfMemory>
        requires { self.old.until ≤ℤ (last_service_day +ℤ pos 1) }
        ensures until { self.new.until ≡ self.old.until }
        ensures gaps { OnOk result
            (self.new.gaps.items ≡ self.old.gaps.items ++ gap_before self.old.until next) }
    {
        let ran = FIRST_SERVICE_DAY < self.until.number();
        if ran && !is_before(next, days_after(self.until, 14)) {
            self.gaps.push(self.until)?;
        }
        Ok(())
    }
}

// Whether a day lies before another one.
fn is_before(day: Day, other: Day) -> bool
    ensures { result ≡ int_lt day other }
{
    day.number() < other.number()
}
