//! Feeds on one side of a service day: what stays of their services, and that all else stays as
//! it is. More services stand in the cases of `tests/cases/merge/cutoff/`.

ghost use Rattle.std.specs.Prelude.{◌≡◌, true};
ghost use Rattle.gtfs_days.specs.Cut.{cut_day};
ghost use Rattle.gtfs_days.specs.Service.{is_service_day};

use crate::again::{assert_feed_reads_back, assert_same_file};
use crate::assertions::assert_is;
use crate::full::FULL;
use gtfs_days::{Cut, LAST_SERVICE_DAY};
use gtfs_feed::Feed;
use gtfs_field::{OutOfMemory, read_date};
use gtfs_fixtures::feed_with;
use gtfs_table::File;
use std::alloc::Global;
use std::hash::RandomState;
use std::process::Abort;
use std::random::RandomSource;
use std::test::Fail;

// The days before a day, or those from it on.
#[derive(Clone, Copy)]
pub(crate) enum Side {
    Before,
    From,
}

// One side of a date, which has to be a service day.
pub(crate) fn cut_at(rt: &impl Abort, side: Side, date: &str) -> Cut
    ensures { is_service_day (cut_day result) ≡ true }
{
    let Ok(day) = read_date(date) else {
        panic!(rt; "no date: {date}");
    };
    assert!(rt; day.number() <= LAST_SERVICE_DAY);
    match side {
        Side::Before => Cut::Before(day),
        Side::From => Cut::From(day),
    }
}

// The rows of both files of services.
#[derive(Clone, Copy)]
struct Rows {
    calendar: &'static str,
    dates: &'static str,
}

const CALENDAR: &str =
    "service_id,monday,tuesday,wednesday,thursday,friday,saturday,sunday,start_date,end_date\n";

const DATES: &str = "service_id,date,exception_type\n";

// A file of these rows.
fn text_of(alloc: Global, header: &str, rows: &str) -> Result<String, OutOfMemory> {
    let mut text = String::from_str(alloc, header)?;
    text.push_str(rows)?;
    Ok(text)
}

// The services of a feed are written so.
fn assert_services(
    rt: &impl Abort,
    alloc: Global,
    feed: &Feed,
    wanted: Rows,
    what: &str,
) -> Result<(), Fail> {
    let calendar = feed.file_text(alloc, File::Calendar)?;
    let rows = text_of(alloc, CALENDAR, wanted.calendar)?;
    assert_is(rt, calendar.as_str(), rows.as_str(), what);
    let dates = feed.file_text(alloc, File::CalendarDates)?;
    let rows = text_of(alloc, DATES, wanted.dates)?;
    assert_is(rt, dates.as_str(), rows.as_str(), what);
    Ok(())
}

const OTHERS: [File; 7] = [
    File::Agency,
    File::Stops,
    File::Routes,
    File::Trips,
    File::StopTimes,
    File::Frequencies,
    File::Transfers,
];

// Each file but those of services is the same.
pub(crate) fn assert_others(
    rt: &impl Abort,
    alloc: Global,
    feed: &Feed,
    other: &Feed,
) -> Result<(), Fail> {
    for file in OTHERS {
        assert_same_file(rt, alloc, feed, other, file)?;
    }
    Ok(())
}

// A service with both kinds of rows, of which an exception alone stays, and one of exceptions.
const FULL_LATE: Rows = Rows {
    calendar: "",
    dates: "C1,20240406,1\nD1,20240501,1\nD1,20240502,2\n",
};

const FULL_EARLY: Rows = Rows {
    calendar: "C1,1,0,1,0,1,0,1,20240401,20240405\nD1,0,0,0,0,0,0,0,20240406,20240406\n",
    dates: "",
};

#[test]
fn a_feed_with_all_values_is_trimmed(rt: HostRuntime) -> Result<(), Fail> {
    let feed = feed_with(&rt, rt.alloc(), &FULL)?;
    for (side, wanted) in [(Side::From, FULL_LATE), (Side::Before, FULL_EARLY)] {
        let cut = cut_at(&rt, side, "20240406");
        let trimmed = feed.trimmed(rt.alloc(), RandomState::new(&rt)?, cut)?;
        assert_services(&rt, rt.alloc(), &trimmed, wanted, "6 April")?;
        assert_others(&rt, rt.alloc(), &feed, &trimmed)?;
        assert_feed_reads_back(&rt, rt.alloc(), &trimmed)?;
    }
    Ok(())
}

// The feed on one side of a day, asked for once more where memory was refused.
// `rt try --test --fail-alloc N` refuses it.
fn trimmed_at_last<R: Abort + RandomSource>(
    rt: &R,
    alloc: Global,
    feed: &Feed,
    date: &str,
) -> Result<Feed, Fail> {
    let cut = cut_at(rt, Side::From, date);
    match feed.trimmed(alloc, RandomState::new(rt)?, cut) {
        Ok(trimmed) => Ok(trimmed),
        Err(_) => {
            let cut = cut_at(rt, Side::From, date);
            Ok(feed.trimmed(alloc, RandomState::new(rt)?, cut)?)
        }
    }
}

#[test]
fn a_refused_feed_can_be_asked_for_again(rt: HostRuntime) -> Result<(), Fail> {
    let feed = feed_with(&rt, rt.alloc(), &FULL)?;
    let trimmed = trimmed_at_last(&rt, rt.alloc(), &feed, "20240406")?;
    assert_services(&rt, rt.alloc(), &trimmed, FULL_LATE, "from 6 April on")?;
    assert_others(&rt, rt.alloc(), &feed, &trimmed)
}
