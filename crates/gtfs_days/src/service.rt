ghost use Rattle.std.specs.Prelude.{◌≡◌, [], Bool, false, true, option_and_then, All, IfOk, IsOk, IsPermutation, option_copied, ℤ, pos, ◌+ℤ◌, ◌≤ℤ◌, int_lt, if◌then◌else◌};
ghost use Rattle.std.specs.Option.{option_map_or};
ghost use Rattle.jiff_core.specs.Calendar.{IsBetween};
ghost use Rattle.gtfs_days.specs.Service.{IsByDay, IsOrdered, first_service_day, is_service_day};

use crate::cut::Cut;
use crate::exception::Exception;
use crate::service_day::LAST_SERVICE_DAY;
use crate::trimmed::exceptions_in;
use crate::week::Week;
use gtfs_field::{Day, OutOfMemory};
use std::alloc::Global;
use std::marker::Model;

/// On which days a service runs: its row of `calendar.txt`, if any, and its exceptions by day.
///
/// GTFS Schedule Reference, `calendar.txt` and `calendar_dates.txt`.
#[derive(Debug, Drop)]
pub struct Service {
    week: Option<Week>,
    exceptions: Vec<(Day, Exception)>,
}

impl Model for Service {
    ghost use Rattle.gtfs_days.specs.Service.{ServiceDates, IsByDay, IsOrdered};

    ghost Value = { ServiceDates };

    ghost view = { λ s. record { week = s.week; exceptions = s.exceptions.items } };

    ghost invariant = { λ s. IsOrdered s.week × IsByDay s.exceptions.items };
}

impl Service {
    ghost use Rattle.gtfs_days.specs.Service.{is_active, has_exception, is_regular, covered_by, with_exceptions, IsFirstIfAny, IsByDay, IsOrdered, NamesEachDayOnce};
    ghost use Rattle.gtfs_days.specs.declared.exception.Exception.{Exception};
    ghost use Rattle.gtfs_days.specs.Cut.{ActiveInPart, cut_day, cut_week, trimmed_service, week_or};

    /// The service with this calendar row, if any, and these exceptions, in whatever order, of
    /// which no two are for one day. With neither it is never active.
    ///
    /// # Errors
    /// `OutOfMemory` where memory ran out. A service without exceptions takes none.
    pub fn new(
        alloc: Global,
        week: Option<Week>,
        exceptions: &[(Day, Exception)],
    ) -> Result<Service, OutOfMemory>
        requires ordered { IsOrdered week }
        requires once { NamesEachDayOnce exceptions.now }
        ensures week { IfOk result (λ s. s.week ≡ week) }
        ensures exceptions { IfOk result (λ s. IsPermutation exceptions.now s.exceptions) }
        ensures by_day { IfOk result (λ s. IsByDay s.exceptions) }
        ensures no_memory { exceptions.now ≡ [] → IsOk result }
    {
        let mut by_day = Vec::with_capacity(alloc, exceptions.len())?;
        by_day.extend_from_slice(exceptions)?;
        by_day.sort_unstable_by_key(|exception| exception.0.number());
        Ok(Service {
            week,
            exceptions: by_day,
        })
    }

    /// The calendar row. Its start is not after its end.
    pub fn week(&self) -> Option<&Week>
        ensures value { option_copied result ≡ self.now.week }
        ensures ordered { IsOrdered self.now.week }
    {
        self.week.as_ref()
    }

    /// The exceptions, ascending by day.
    pub fn exceptions(&self) -> &[(Day, Exception)]
        ensures value { result.now ≡ self.now.exceptions }
        ensures by_day { IsByDay result.now }
    {
        self.exceptions.as_slice()
    }

    /// The service on one side of a service day: it runs on the days there on which it ran, and on
    /// no other. Of its calendar row the days there stay, and so do its exceptions. Where nothing
    /// is left it has a row that names no weekday.
    ///
    /// # Errors
    /// `OutOfMemory` where memory ran out.
    pub fn trim(&self, alloc: Global, cut: Cut) -> Result<Service, OutOfMemory>
        requires { is_service_day (cut_day cut) ≡ true }
        ensures value { IfOk result (λ s. s ≡ trimmed_service cut self.now) }
        ensures active { ActiveInPart cut self.now }
    {
        let exceptions = exceptions_in(alloc, self.exceptions.as_slice(), &cut)?;
        match &self.week {
            Some(week) if week.reaches_into(&cut) => Ok(Service {
                week: Some(Week {
                    days: week.days,
                    start: week.start_in(&cut),
                    end: week.end_in(&cut),
                }),
                exceptions,
            }),
            _ if exceptions.is_empty() => Ok(Service {
                week: Some(Week {
                    days: [false; 7],
                    start: cut.day(),
                    end: cut.day(),
                }),
                exceptions,
            }),
            _ => Ok(Service {
                week: None,
                exceptions,
            }),
        }
    }

    /// Whether the service runs on the day: its calendar row covers the day and no exception
    /// removes it, or an exception adds it. It never runs after 9998-12-31.
    pub fn active(&self, day: Day) -> bool
        ensures { result ≡ is_active self.now day }
    {
        if day.number() > LAST_SERVICE_DAY {
            return false;
        }
        match self.exception_on(day) {
            Some(exception) => exception == Exception::Added,
            None => self.covers(day),
        }
    }

    // Whether the service has a calendar row that covers the day.
    fn covers(&self, day: Day) -> bool
        ensures { result ≡ covered_by self.now.week day }
    {
        match &self.week {
            Some(week) => week.covers(day),
            None => false,
        }
    }

    // The one exception that stands for the day, found by binary search.
    fn exception_on(&self, day: Day) -> Option<Exception>
        ensures { (kind : Exception → Bool)
            → has_exception kind self.now day ≡ option_map_or kind result false }
    {
        let found = self
            .exceptions
            .binary_search_by_key(&day.number(), |exception| exception.0.number());
        match found {
            Ok(at) => Some(self.exceptions[at].1),
            Err(_) => None,
        }
    }

    /// The first day from `day` on, that day included, on which the service runs, and none exactly
    /// where it runs on no such day.
    pub fn next_active(&self, day: Day) -> Option<Day>
        ensures { IsFirstIfAny (is_active self.now) day result }
    {
        match self.next_among(self.exceptions_from(day), day.number()) {
            Some(number) => Some(Day::from_number(number)),
            None => None,
        }
    }

    // The exceptions for days from `day` on, found by binary search: from there on only they count.
    fn exceptions_from(&self, day: Day) -> &[(Day, Exception)]
        ensures by_day { IsByDay result.now }
        ensures from_on { All (λ e. day ≤ℤ e.0) result.now }
        ensures same { (e : ℤ) → day ≤ℤ e
            → is_active self.now e ≡ is_active (with_exceptions self.now result.now) e }
    {
        let from = day.number();
        let first = self
            .exceptions
            .partition_point(|exception| exception.0.number() < from);
        &self.exceptions[first..]
    }

    // The first active day from `from` on, if these are the exceptions. Between two exceptions the
    // days are as the calendar row says, so none of them is looked at one by one.
    fn next_among(&self, exceptions: &[(Day, Exception)], from: i32) -> Option<i32>
        requires low { first_service_day ≤ℤ from }
        requires high { from ≤ℤ pos 2_932_896 }
        requires by_day { IsByDay exceptions.now }
        requires from_on { All (λ e. from ≤ℤ e.0) exceptions.now }
        ensures { IsFirstIfAny (is_active (with_exceptions self.now exceptions.now)) from result }
    {
        let mut regular = self.next_regular(from);
        for &(day, exception) in exceptions {
            let day = day.number();
            if is_before(regular, day) {
                return regular;
            }
            match exception {
                Exception::Added => return service_day(day),
                Exception::Removed => regular = self.regular_after(regular, day),
            }
        }
        regular
    }

    // The first service day after `removed` that the calendar row covers, where `regular` is the
    // first from `removed` on.
    fn regular_after(&self, regular: Option<i32>, removed: i32) -> Option<i32>
        requires low { first_service_day ≤ℤ removed }
        requires high { removed ≤ℤ pos 2_932_896 }
        requires regular { IsFirstIfAny (is_regular self.now.week) removed regular }
        ensures { IsFirstIfAny (is_regular self.now.week) (removed +ℤ pos 1) result }
    {
        match regular {
            Some(day) if day == removed => self.next_regular(removed + 1),
            other => other,
        }
    }

    // The first service day from `from` on that the calendar row covers.
    fn next_regular(&self, from: i32) -> Option<i32>
        requires { IsBetween first_service_day (pos 2_932_897) from }
        ensures { IsFirstIfAny (is_regular self.now.week) from result }
    {
        match &self.week {
            Some(week) => week.next_covered(from),
            None => None,
        }
    }
}

// Whether there is a day found, and it lies before this one.
fn is_before(found: Option<i32>, day: i32) -> bool
    ensures { result ≡ option_map_or (λ f. int_lt f day) found false }
{
    found.is_some_and(|found| found < day)
}

// The day, if a service can be active on it.
fn service_day(day: i32) -> Option<i32>
    requires { first_service_day ≤ℤ day }
    ensures { result ≡ (if is_service_day day then Some day else None) }
{
    if day <= LAST_SERVICE_DAY {
        Some(day)
    } else {
        None
    }
}
