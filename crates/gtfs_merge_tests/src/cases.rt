//! Merges of changes to the small dataset.
ghost use Rattle.std.specs.Prelude.{◌≡◌, ◌≤◌, IfSome, true};
ghost use Rattle.gtfs_days.specs.Service.{is_service_day};

use crate::assertions::assert_text;
use crate::report::{pairs, report};
use crate::written::{Rows, assert_rows, assert_same_files, folders_with};
use gtfs_days::LAST_SERVICE_DAY;
use gtfs_feed::Feed;
use gtfs_field::{Day, read_date};
use gtfs_fixtures::{FileText, feed_with, read_feed};
use gtfs_merge::{Merged, Names, Options, merge, merge_owned};
use std::alloc::Global;
use std::hash::RandomState;
use std::process::Abort;
use std::random::RandomSource;
use std::test::Fail;

/// Two changes to the small dataset, what their merge is asked for, and what it gives.
#[derive(Clone, Copy)]
pub(crate) struct Case {
    pub(crate) what: &'static str,
    pub(crate) a: &'static [FileText],
    pub(crate) b: &'static [FileText],
    pub(crate) asked: Asked,
    /// The ids that became others, and how many are joined.
    pub(crate) report: &'static str,
    /// The near stops of B, each with that of A.
    pub(crate) pairs: &'static str,
    /// What some of the files of the merged feed have.
    pub(crate) written: &'static [Rows],
}

/// A merge of the small dataset with itself that is asked for nothing.
pub(crate) const MERGED: Case = Case {
    what: "",
    a: &[],
    b: &[],
    asked: PLAIN,
    report: "",
    pairs: "",
    written: &[],
};

/// The small dataset at other times: at ten.
pub(crate) const AT_TEN: FileText = (
    "stop_times.txt",
    "trip_id,arrival_time,departure_time,stop_id,stop_sequence\n\
T1,10:00:00,10:00:00,S1,1\nT1,10:10:00,10:10:00,S2,2\n",
);

/// What a merge is asked for: up to how many millionths of a degree stops are near, and the date
/// from which on the second feed is taken.
#[derive(Clone, Copy)]
pub(crate) struct Asked {
    pub(crate) near: Option<u32>,
    pub(crate) cutoff: Option<&'static str>,
}

/// Neither.
pub(crate) const PLAIN: Asked = Asked {
    near: None,
    cutoff: None,
};

/// The merge of two feeds that is asked for, with files of any length.
pub(crate) fn merged_by<R: Abort + RandomSource>(
    rt: &R,
    alloc: Global,
    (a, b): (&Feed, &Feed),
    asked: Asked,
) -> Result<Merged, Fail> {
    let options = options_of(rt, u64::MAX, asked);
    Ok(merge(alloc, RandomState::new(rt)?, a, b, &options)?)
}

/// The options that are asked for.
pub(crate) fn options_of(rt: &impl Abort, file_limit: u64, asked: Asked) -> Options
    ensures near { IfSome result.near (λ n. n ≤ 2_147_483_647) }
    ensures cutoff { IfSome result.cutoff (λ d. is_service_day d ≡ true) }
{
    Options {
        file_limit,
        near: at_most(asked.near),
        cutoff: cutoff_of(rt, asked.cutoff),
    }
}

// The greatest distance that may be asked for, where it is more.
fn at_most(near: Option<u32>) -> Option<u32>
    ensures { IfSome result (λ n. n ≤ 2_147_483_647) }
{
    match near {
        Some(near) => Some(near.min(2_147_483_647)),
        None => None,
    }
}

// The service day of a date, if there is one.
fn cutoff_of(rt: &impl Abort, date: Option<&str>) -> Option<Day>
    ensures { IfSome result (λ d. is_service_day d ≡ true) }
{
    match date {
        Some(date) => Some(service_day(rt, date)),
        None => None,
    }
}

// The service day of a date.
fn service_day(rt: &impl Abort, date: &str) -> Day
    ensures { is_service_day result ≡ true }
{
    let Ok(day) = read_date(date) else {
        panic!(rt; "no date: {date}");
    };
    assert!(rt; day.number() <= LAST_SERVICE_DAY);
    day
}

/// The merge of feeds that are lent gives what is wanted, and that of feeds that are given up the
/// same, each with a random state of its own.
pub(crate) fn assert_case<R: Abort + RandomSource>(
    rt: &R,
    alloc: Global,
    case: &Case,
) -> Result<(), Fail> {
    let a = feed_with(rt, alloc, case.a)?;
    let b = feed_with(rt, alloc, case.b)?;
    let lent = merged_by(rt, alloc, (&a, &b), case.asked)?;
    assert_gives(rt, alloc, case, &lent)?;
    assert_owned(rt, alloc, case, (a, b), &lent.feed)
}

// The merge of feeds that are given up has the names that are wanted, and the files of this one.
fn assert_owned<R: Abort + RandomSource>(
    rt: &R,
    alloc: Global,
    case: &Case,
    (a, b): (Feed, Feed),
    lent: &Feed,
) -> Result<(), Fail> {
    let options = options_of(rt, u64::MAX, case.asked);
    let owned = merge_owned(alloc, RandomState::new(rt)?, a, b, &options)?;
    assert_told(rt, alloc, case, &owned.names)?;
    assert_same_files(rt, alloc, &owned.feed, lent)
}

/// The merge of two feeds is what is wanted. Its written files pass the validator, and are those
/// of the feed that is made of them.
pub(crate) fn assert_gives<R: Abort + RandomSource>(
    rt: &R,
    alloc: Global,
    case: &Case,
    merged: &Merged,
) -> Result<(), Fail> {
    assert_told(rt, alloc, case, &merged.names)?;
    assert_rows(rt, alloc, &merged.feed, case.written)?;
    let mut folders = folders_with(alloc, &merged.feed)?;
    let again = read_feed(alloc, RandomState::new(rt)?, &mut folders, "out")?;
    assert_same_files(rt, alloc, &merged.feed, &again)
}

// The names and the near stops are those that are wanted.
fn assert_told(rt: &impl Abort, alloc: Global, case: &Case, names: &Names) -> Result<(), Fail> {
    assert_text(rt, report(alloc, names), case.report, case.what)?;
    assert_text(rt, pairs(alloc, names), case.pairs, case.what)
}
