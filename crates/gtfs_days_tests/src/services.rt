//! Services with the days on which they run.
ghost use Rattle.std.specs.Prelude.{◌≡◌, ℤ, pos, ◌+ℤ◌};
ghost use Rattle.jiff_core.specs.Calendar.{IsBetween};

use crate::assertions::{assert_is, assert_is_at};
use gtfs_days::Exception::{Added, Removed};
use gtfs_days::{FIRST_SERVICE_DAY, LAST_SERVICE_DAY, Service, Week};
use gtfs_field::{Day, read_date};
use std::process::Abort;
use std::test::Fail;

// A day of April 2024, of which the 1st is a Monday.
pub(crate) fn april(day: i32) -> Day
    requires { IsBetween (pos 1) (pos 30) day }
    ensures { result ≡ pos 19_813 +ℤ day }
{
    Day::from_number(19_813 + day)
}

// Whether the service runs on these days.
fn assert_active(rt: &impl Abort, service: &Service, days: &[(Day, bool)]) {
    for &(day, active) in days {
        assert_is_at(rt, service.active(day), active, "active on", day);
    }
}

// The first day from each of these on that the service runs.
pub(crate) fn assert_next(rt: &impl Abort, service: &Service, days: &[(Day, Option<Day>)]) {
    for &(day, next) in days {
        assert_is_at(rt, service.next_active(day), next, "next from", day);
    }
}

// The days of April 2024 up to the 11th.
const ACTIVE: [bool; 11] = [
    true, true, false, true, true, false, false, false, false, true, false,
];

fn assert_april(rt: &impl Abort, service: &Service) {
    for (before, active) in ACTIVE.iter().enumerate() {
        let day = Day::from_number(19_814 + before as i32);
        let found = service.active(day);
        assert_is_at(rt, found, *active, "active, in days after the 1st:", before);
    }
    let next = [
        (april(1), Some(april(1))),
        (april(3), Some(april(4))),
        (april(6), Some(april(10))),
        (april(11), None),
    ];
    assert_next(rt, service, &next);
}

const WORKDAYS: [bool; 7] = [true, true, true, true, true, false, false];

#[test]
fn weekdays_with_an_added_and_a_removed_day(rt: HostRuntime) -> Result<(), Fail> {
    let (days, start, end) = (WORKDAYS, april(1), april(5));
    let week = Week { days, start, end };
    let exceptions = [(april(10), Added), (april(3), Removed)];
    let service = Service::new(rt.alloc(), Some(week), &exceptions)?;
    assert_april(&rt, &service);
    assert_is(&rt, service.week(), Some(&week), "week");
    let by_day = [(april(3), Removed), (april(10), Added)];
    assert_is(&rt, service.exceptions(), &by_day, "exceptions");
    Ok(())
}

#[test]
fn one_added_day_alone(rt: HostRuntime) -> Result<(), Fail> {
    let (before, day, after) = (april(5), april(6), april(7));
    let service = Service::new(rt.alloc(), None, &[(day, Added)])?;
    assert_active(
        &rt,
        &service,
        &[(before, false), (day, true), (after, false)],
    );
    let next = [(april(1), Some(day)), (day, Some(day)), (after, None)];
    assert_next(&rt, &service, &next);
    assert_is(&rt, service.week(), None, "week");
    Ok(())
}

#[test]
fn a_weekday_that_the_row_does_not_reach(rt: HostRuntime) -> Result<(), Fail> {
    let week = Week {
        days: [true, false, false, false, false, false, false],
        start: april(2),
        end: april(7),
    };
    let service = Service::new(rt.alloc(), Some(week), &[])?;
    assert_is(&rt, service.next_active(april(1)), None, "next");
    Ok(())
}

// The limits of service days, and the day after the last.
const LIMITS: &[(&str, i32)] = &[
    ("19000101", FIRST_SERVICE_DAY),
    ("99981231", LAST_SERVICE_DAY),
    ("99990101", LAST_SERVICE_DAY + 1),
];

#[test]
fn service_days_are_dates(rt: HostRuntime) {
    for (text, number) in LIMITS {
        let found = read_date(text).map(|day| day.number());
        assert_is_at(&rt, found, Ok(*number), "number of", *text);
    }
}

// A service that is never without a day runs on both limits, and not on the day after the last;
// before the first there is no date.
#[test]
fn the_first_and_the_last_service_day(rt: HostRuntime) -> Result<(), Fail> {
    let first = Day::from_number(FIRST_SERVICE_DAY);
    let last = Day::from_number(LAST_SERVICE_DAY);
    let after = Day::from_number(LAST_SERVICE_DAY + 1);
    let (days, end) = ([true; 7], Day::from_number(2_932_896));
    let week = Week {
        days,
        start: first,
        end,
    };
    let service = Service::new(rt.alloc(), Some(week), &[])?;
    assert_active(
        &rt,
        &service,
        &[(first, true), (last, true), (after, false)],
    );
    let next = [(first, Some(first)), (last, Some(last)), (after, None)];
    assert_next(&rt, &service, &next);
    Ok(())
}

#[test]
fn no_service_in_the_year_9999(rt: HostRuntime) -> Result<(), Fail> {
    // 9998-12-31, 9999-01-01 and 9999-12-31
    let last = Day::from_number(2_932_531);
    let after = Day::from_number(2_932_532);
    let end = Day::from_number(2_932_896);
    let (days, start) = ([true; 7], april(1));
    let week = Week { days, start, end };
    let service = Service::new(rt.alloc(), Some(week), &[(end, Added)])?;
    assert_next(&rt, &service, &[(last, Some(last)), (after, None)]);
    assert_active(&rt, &service, &[(last, true), (after, false), (end, false)]);
    Ok(())
}

#[test]
fn a_service_without_rows_is_never_active(rt: HostRuntime) -> Result<(), Fail> {
    let service = Service::new(rt.alloc(), None, &[])?;
    let next = service.next_active(Day::from_number(-25_567));
    assert_is(&rt, next, None, "next");
    Ok(())
}

#[test]
fn a_service_without_weekdays_is_never_active(rt: HostRuntime) -> Result<(), Fail> {
    let first = Day::from_number(-25_567);
    let (days, end) = ([false; 7], Day::from_number(2_932_531));
    let week = Week {
        days,
        start: first,
        end,
    };
    let service = Service::new(rt.alloc(), Some(week), &[])?;
    assert_is(&rt, service.next_active(first), None, "next");
    assert_is(&rt, service.active(april(1)), false, "active");
    Ok(())
}

// Each day of the row is removed, and a day long after its end is added.
#[test]
fn removed_days_are_passed(rt: HostRuntime) -> Result<(), Fail> {
    let week = Week {
        days: [true; 7],
        start: april(1),
        end: april(3),
    };
    let exceptions = [
        (april(30), Added),
        (april(2), Removed),
        (april(1), Removed),
        (april(3), Removed),
    ];
    let service = Service::new(rt.alloc(), Some(week), &exceptions)?;
    for day in [april(1), april(2), april(3), april(4), april(30)] {
        let next = service.next_active(day);
        assert_is_at(&rt, next, Some(april(30)), "next from", day);
    }
    Ok(())
}

// 8,000 years lie between the two added days.
#[test]
fn a_day_is_added_long_after_the_others(rt: HostRuntime) -> Result<(), Fail> {
    let last = Day::from_number(LAST_SERVICE_DAY);
    let week = Week {
        days: WORKDAYS,
        start: april(1),
        end: april(5),
    };
    let exceptions = [(last, Added), (april(10), Added), (april(11), Removed)];
    let service = Service::new(rt.alloc(), Some(week), &exceptions)?;
    assert_active(&rt, &service, &[(april(10), true), (last, true)]);
    let after = Day::from_number(LAST_SERVICE_DAY + 1);
    let next = [
        (april(6), Some(april(10))),
        (april(11), Some(last)),
        (Day::from_number(2_900_000), Some(last)),
        (last, Some(last)),
        (after, None),
    ];
    assert_next(&rt, &service, &next);
    Ok(())
}
