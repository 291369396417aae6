//! Services on one side of a service day: the rows that stay, and the days on which they run.
ghost use Rattle.std.specs.Prelude.{◌≡◌, IfOk, true};
ghost use Rattle.gtfs_days.specs.Cut.{cut_day};
ghost use Rattle.gtfs_days.specs.Service.{NamesEachDayOnce, is_service_day};

use crate::assertions::{assert_is, assert_is_at};
use crate::services::{april, assert_next};
use gtfs_days::Exception::{Added, Removed};
use gtfs_days::{Cut, Exception, FIRST_SERVICE_DAY, LAST_SERVICE_DAY, Service, Week};
use gtfs_field::{Day, OutOfMemory};
use std::alloc::Global;
use std::process::Abort;
use std::test::Fail;

const DAILY: [bool; 7] = [true; 7];

// Holds that these rows stay of the service.
fn assert_stay<R: Abort + AllocGlobal>(
    rt: &R,
    service: &Service,
    cut: Cut,
    week: Option<&Week>,
    exceptions: &[(Day, Exception)],
) -> Result<(), Fail>
    requires { is_service_day (cut_day cut) ≡ true }
{
    let trimmed = service.trim(rt.alloc(), cut)?;
    assert_is(rt, trimmed.week(), week, "calendar row");
    assert_is(rt, trimmed.exceptions(), exceptions, "exceptions");
    Ok(())
}

// A calendar row of every day from the one to the other.
fn daily(start: Day, end: Day) -> Week {
    Week {
        days: DAILY,
        start,
        end,
    }
}

// A calendar row of one day that names no weekday.
fn idle(day: Day) -> Week {
    Week {
        days: [false; 7],
        start: day,
        end: day,
    }
}

#[test]
fn rows_go_where_nothing_of_them_is_left(rt: HostRuntime) -> Result<(), Fail> {
    let week = Week {
        days: DAILY,
        start: april(1),
        end: april(2),
    };
    let third = [(april(3), Added)];
    let service = Service::new(rt.alloc(), Some(week), &third)?;
    let first = daily(april(1), april(1));
    assert_stay(&rt, &service, Cut::Before(april(2)), Some(&first), &[])?;
    assert_stay(&rt, &service, Cut::From(april(3)), None, &third)?;
    let never = Day::from_number(FIRST_SERVICE_DAY);
    let no_days = idle(Day::from_number(FIRST_SERVICE_DAY));
    assert_stay(&rt, &service, Cut::Before(never), Some(&no_days), &[])
}

#[test]
fn a_trimmed_service_runs_in_its_part_alone(rt: HostRuntime) -> Result<(), Fail> {
    let week = Week {
        days: DAILY,
        start: april(1),
        end: april(2),
    };
    let service = Service::new(rt.alloc(), Some(week), &[(april(3), Added)])?;
    let before = service.trim(rt.alloc(), Cut::Before(april(2)))?;
    let from = service.trim(rt.alloc(), Cut::From(april(3)))?;
    for (day, runs_before, runs_from) in [
        (april(1), true, false),
        (april(2), false, false),
        (april(3), false, true),
    ] {
        assert_is_at(
            &rt,
            before.active(day),
            runs_before,
            "before the 2nd, on",
            day,
        );
        assert_is_at(&rt, from.active(day), runs_from, "from the 3rd, on", day);
    }
    Ok(())
}

// A calendar row with exceptions before it, in it and after it.
fn crossed(rt: &impl AllocGlobal) -> Result<Service, Fail> {
    let week = Week {
        days: DAILY,
        start: april(8),
        end: april(12),
    };
    let exceptions = [
        (april(7), Added),
        (april(9), Removed),
        (april(10), Removed),
        (april(11), Removed),
        (april(20), Added),
    ];
    Ok(Service::new(rt.alloc(), Some(week), &exceptions)?)
}

// Of the exceptions on the day before the cut, on it and after it, each stays on its side.
#[test]
fn rows_are_cut_at_the_day(rt: HostRuntime) -> Result<(), Fail> {
    let service = crossed(&rt)?;
    let early = daily(april(8), april(9));
    let before = [(april(7), Added), (april(9), Removed)];
    assert_stay(&rt, &service, Cut::Before(april(10)), Some(&early), &before)?;
    let late = daily(april(10), april(12));
    let from = [
        (april(10), Removed),
        (april(11), Removed),
        (april(20), Added),
    ];
    assert_stay(&rt, &service, Cut::From(april(10)), Some(&late), &from)
}

// A calendar row that lies whole on the other side goes, and exceptions alone get none.
#[test]
fn exceptions_stay_without_a_calendar_row(rt: HostRuntime) -> Result<(), Fail> {
    let service = crossed(&rt)?;
    assert_stay(
        &rt,
        &service,
        Cut::Before(april(8)),
        None,
        &[(april(7), Added)],
    )?;
    assert_stay(
        &rt,
        &service,
        Cut::From(april(13)),
        None,
        &[(april(20), Added)],
    )?;
    let last = daily(april(12), april(12));
    let twentieth = [(april(20), Added)];
    assert_stay(&rt, &service, Cut::From(april(12)), Some(&last), &twentieth)
}

#[test]
fn a_service_on_the_other_side_gets_an_idle_row(rt: HostRuntime) -> Result<(), Fail> {
    let service = crossed(&rt)?;
    let seventh = idle(april(7));
    assert_stay(&rt, &service, Cut::Before(april(7)), Some(&seventh), &[])?;
    let after = idle(april(21));
    assert_stay(&rt, &service, Cut::From(april(21)), Some(&after), &[])
}

// An exception that removes a day is a row too, so no other stands for it.
#[test]
fn a_removed_day_alone_gets_no_calendar_row(rt: HostRuntime) -> Result<(), Fail> {
    let week = Week {
        days: DAILY,
        start: april(1),
        end: april(5),
    };
    let removed = [(april(10), Removed)];
    let service = Service::new(rt.alloc(), Some(week), &removed)?;
    assert_stay(&rt, &service, Cut::From(april(6)), None, &removed)
}

#[test]
fn a_cut_at_the_first_and_the_last_service_day(rt: HostRuntime) -> Result<(), Fail> {
    let first = Day::from_number(FIRST_SERVICE_DAY);
    let last = Day::from_number(LAST_SERVICE_DAY);
    let end = Day::from_number(2_932_896);
    let week = Week {
        days: DAILY,
        start: first,
        end,
    };
    let service = Service::new(rt.alloc(), Some(week), &[(end, Added)])?;
    assert_stay(
        &rt,
        &service,
        Cut::From(first),
        Some(&week),
        &[(end, Added)],
    )?;
    let until = daily(first, Day::from_number(LAST_SERVICE_DAY - 1));
    assert_stay(&rt, &service, Cut::Before(last), Some(&until), &[])?;
    let since = daily(last, end);
    assert_stay(
        &rt,
        &service,
        Cut::From(last),
        Some(&since),
        &[(end, Added)],
    )
}

// More exceptions than two bytes can number.
const MANY: i32 = 70_000;

// An exception for each of the days from 1970-01-01 on.
fn many_exceptions(alloc: Global) -> Result<Vec<(Day, Exception)>, OutOfMemory>
    ensures { IfOk result (λ exceptions. NamesEachDayOnce exceptions.items) }
{
    let mut exceptions = Vec::new(alloc);
    for number in 0..MANY {
        exceptions.push((Day::from_number(number), Added))?;
    }
    Ok(exceptions)
}

// The service of these exceptions alone.
fn many_days(alloc: Global) -> Result<Service, OutOfMemory> {
    let exceptions = many_exceptions(alloc)?;
    Service::new(alloc, None, &exceptions)
}

// Holds that half of the exceptions are left, those from the one day to the other,
// and no calendar row.
fn assert_half(rt: &impl Abort, half: &Service, first: i32, last: i32) {
    assert_is(rt, half.exceptions().len(), 35_000, "exceptions of a half");
    assert_is(rt, half.week(), None, "a calendar row");
    let [(one, _), .., (other, _)] = half.exceptions() else {
        panic!(rt; "no exceptions");
    };
    assert_is(rt, one.number(), first, "the first exception");
    assert_is(rt, other.number(), last, "the last exception");
}

#[test]
fn the_next_day_of_many_exceptions(rt: HostRuntime) -> Result<(), Fail> {
    let (first, last) = (Day::from_number(0), Day::from_number(69_999));
    let middle = Day::from_number(35_000);
    let next = [
        (Day::from_number(FIRST_SERVICE_DAY), Some(first)),
        (first, Some(first)),
        (middle, Some(middle)),
        (last, Some(last)),
        (Day::from_number(70_000), None),
    ];
    assert_next(&rt, &many_days(rt.alloc())?, &next);
    Ok(())
}

#[test]
fn a_service_of_many_exceptions_is_cut_in_the_middle(rt: HostRuntime) -> Result<(), Fail> {
    let service = many_days(rt.alloc())?;
    let before = service.trim(rt.alloc(), Cut::Before(Day::from_number(35_000)))?;
    assert_half(&rt, &before, 0, 34_999);
    let from = service.trim(rt.alloc(), Cut::From(Day::from_number(35_000)))?;
    assert_half(&rt, &from, 35_000, 69_999);
    Ok(())
}
