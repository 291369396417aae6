//! Changes to the small feed, and the advice on what they make.

use crate::assertions::assert_is;
use gtfs_advice::{Advice, Subject, advise};
use gtfs_feed::{Feed, Parts};
use gtfs_field::{Day, List, OutOfMemory, push_date, read_date};
use gtfs_fixtures::{FileText, folders_of, read_feed};
use gtfs_table::MemoryFolders;
use std::alloc::Global;
use std::hash::RandomState;
use std::process::Abort;
use std::random::RandomSource;
use std::test::Fail;

/// Changes to a feed, and the advice on it.
#[derive(Clone, Copy)]
pub(crate) struct Case {
    pub(crate) what: &'static str,
    pub(crate) changes: &'static [FileText],
    /// The date from which on there is to be service.
    pub(crate) day: Option<&'static str>,
    /// A line for each advice: its code, the file under which it stands, and its subject.
    pub(crate) wanted: &'static str,
}

/// The feed on which there is no advice.
pub(crate) const QUIET: Case = Case {
    what: "nothing",
    changes: &[],
    day: None,
    wanted: "",
};

/// Two stops of the small feed, at both of which its trip stops, and a headsign of the trip: with
/// these there is no advice on it.
pub(crate) const QUIET_FILES: &[FileText] = &[
    (
        "stops.txt",
        "stop_id,stop_name,stop_lat,stop_lon\nS1,Mill,52.5,13.4\nS2,Lake,52.6,13.5\n",
    ),
    (
        "trips.txt",
        "route_id,service_id,trip_id,trip_headsign\nR1,C1,T1,Lake\n",
    ),
];

/// No service has a row in this file.
pub(crate) const NO_WEEKS: FileText = (
    "calendar.txt",
    "service_id,monday,tuesday,wednesday,thursday,friday,saturday,sunday,start_date,end_date\n",
);

/// The advice on the quiet feed with each of these changes is what is wanted.
pub(crate) fn assert_cases<R: Abort + RandomSource>(
    rt: &R,
    alloc: Global,
    cases: &[Case],
) -> Result<(), Fail> {
    for case in cases {
        assert_case(rt, alloc, case)?;
    }
    Ok(())
}

fn assert_case<R: Abort + RandomSource>(rt: &R, alloc: Global, case: &Case) -> Result<(), Fail> {
    let feed = quiet_feed_with(rt, alloc, case.changes)?;
    assert_advice(rt, alloc, &feed, case)
}

/// The advice on this feed is what is wanted.
pub(crate) fn assert_advice(
    rt: &impl Abort,
    alloc: Global,
    feed: &Feed,
    case: &Case,
) -> Result<(), Fail> {
    let found = told(alloc, feed, case.day)?;
    assert_is(rt, found.as_str(), case.wanted, case.what);
    Ok(())
}

// The quiet feed with these files in place of those with their names.
fn quiet_feed_with<R: RandomSource>(
    rt: &R,
    alloc: Global,
    changes: &[FileText],
) -> Result<Feed, Fail> {
    let mut folders = folders_of(alloc, QUIET_FILES)?;
    put(&mut folders, changes)?;
    read_feed(alloc, RandomState::new(rt)?, &mut folders, "f1")
}

/// Puts files into the folder f1.
pub(crate) fn put(folders: &mut MemoryFolders, files: &[FileText]) -> Result<(), OutOfMemory> {
    for (name, text) in files {
        folders.put("f1", name, text.as_bytes())?;
    }
    Ok(())
}

// The lines of the advice on a feed.
fn told(alloc: Global, feed: &Feed, date: Option<&str>) -> Result<String, Fail> {
    let list = advise(alloc, feed, day_of(date)?)?;
    lines_of(alloc, feed, &list)
}

// The day of a date, if one is given.
fn day_of(date: Option<&str>) -> Result<Option<Day>, Fail> {
    let Some(date) = date else {
        return Ok(None);
    };
    match read_date(date) {
        Ok(day) => Ok(Some(day)),
        Err(_) => Err(Fail::new("no date")),
    }
}

fn lines_of(alloc: Global, feed: &Feed, list: &List<Advice>) -> Result<String, Fail> {
    let mut text = String::new(alloc);
    for advice in list.as_slice() {
        push_line(alloc, feed.parts(), advice, &mut text)?;
    }
    Ok(text)
}

fn push_line(
    alloc: Global,
    parts: &Parts,
    advice: &Advice,
    text: &mut String,
) -> Result<(), OutOfMemory> {
    text.push_str(advice.code.name())?;
    text.push_str(" ")?;
    text.push_str(advice.code.file().name())?;
    text.push_str(" ")?;
    push_subject(alloc, parts, &advice.subject, text)?;
    text.push_str("\n")
}

fn push_subject(
    alloc: Global,
    parts: &Parts,
    subject: &Subject,
    text: &mut String,
) -> Result<(), OutOfMemory> {
    if let Subject::Day(day) = subject {
        return push_date(alloc, text, *day);
    }
    text.push_str(id_of(parts, subject).unwrap_or("no row"))
}

/// The id of the row that an advice is about.
pub(crate) fn id_of<'a>(parts: &'a Parts, subject: &Subject) -> Option<&'a str> {
    match subject {
        Subject::Agency(n) => Some(parts.agencies.as_slice().get(n.0)?.agency_id.as_str()),
        Subject::Stop(n) => Some(parts.stops.as_slice().get(n.0)?.stop_id.as_str()),
        Subject::Route(n) => Some(parts.routes.as_slice().get(n.0)?.route_id.as_str()),
        Subject::Trip(n) => Some(parts.trips.as_slice().get(n.0)?.trip_id.as_str()),
        Subject::Service(n) => Some(parts.services.as_slice().get(n.0)?.service_id.as_str()),
        Subject::Day(_) => None,
        Subject::Nothing => Some("nothing"),
    }
}
