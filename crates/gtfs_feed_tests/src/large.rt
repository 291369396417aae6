//! A dataset with more rows of each kind than two bytes can number: no call gives up there.
//!
//! `rt try` builds with checks that make this take most of an hour;
//! built for the gate it takes seconds.

use crate::again::{assert_same, assert_same_file, write_tables};
use crate::assertions::assert_is;
use crate::ids::{Kind, number_of};
use crate::lanes::{Wanted, assert_lanes};
use crate::named::stop_named;
use crate::trimmed::{Side, assert_others, cut_at};
use gtfs_feed::Feed;
use gtfs_field::OutOfMemory;
use gtfs_fixtures::{read_by_draft, read_feed};
use gtfs_rows::ServiceNo;
use gtfs_runs::{Event, Lane, ListLane, Steps, StopLanes, Times, flat_events, patterns};
use gtfs_table::{File, MemoryFolders};
use std::alloc::Global;
use std::hash::RandomState;
use std::process::Abort;
use std::random::RandomSource;
use std::test::Fail;

// Two bytes number 65,536.
const COUNT: u32 = 70_000;

// The number of the first id:
// all have six digits, so their order by bytes is that of their numbers.
const FIRST: u32 = 100_000;

// A file, and the rows that it has for each number, with a `#` in its place.
struct Rows {
    name: &'static str,
    header: &'static str,
    rows: &'static str,
}

// The trips T go from one stop each to another one, those of U have frequencies, and those of V
// share both stops and a service.
const FILES: &[Rows] = &[
    Rows {
        name: "agency.txt",
        header: "agency_id,agency_name,agency_url,agency_timezone\n",
        rows: "A#,Agency #,http://a.example,UTC\n",
    },
    Rows {
        name: "stops.txt",
        header: "stop_id,stop_name,stop_lat,stop_lon\n",
        rows: "S#,Stop #,52.5,13.4\n",
    },
    Rows {
        name: "routes.txt",
        header: "route_id,agency_id,route_short_name,route_type\n",
        rows: "R#,A#,#,3\n",
    },
    Rows {
        name: "trips.txt",
        header: "route_id,service_id,trip_id\n",
        rows: "R100000,C#,T#\nR100001,C#,U#\nR100002,C100000,V#\n",
    },
    Rows {
        name: "stop_times.txt",
        header: "trip_id,arrival_time,departure_time,stop_id,stop_sequence,stop_headsign\n",
        rows: "T#,08:00:00,08:00:00,S100000,1,To #\nT#,08:10:00,08:10:00,S#,2,\n\
U#,08:00:00,08:00:00,S100001,1,\nU#,08:10:00,08:10:00,S#,2,\n\
V#,09:00:00,09:00:00,S100002,1,\nV#,09:10:00,09:10:00,S100003,2,\n",
    },
    Rows {
        name: "calendar.txt",
        header: "service_id,monday,tuesday,wednesday,thursday,friday,saturday,sunday,start_date,end_date\n",
        rows: "C#,1,1,1,1,1,1,1,20240401,20240401\n",
    },
    Rows {
        name: "calendar_dates.txt",
        header: "service_id,date,exception_type\n",
        rows: "C#,20240402,1\n",
    },
    Rows {
        name: "frequencies.txt",
        header: "trip_id,start_time,end_time,headway_secs\n",
        rows: "U#,06:00:00,07:00:00,1800\n",
    },
    Rows {
        name: "transfers.txt",
        header: "from_stop_id,to_stop_id,transfer_type\n",
        rows: "S#,S100000,0\n",
    },
];

// Appends rows with this number in the place of each `#`.
fn push_rows(text: &mut String, rows: &str, number: &str) -> Result<(), OutOfMemory> {
    for character in rows.chars() {
        if character == '#' {
            text.push_str(number)?;
        } else {
            text.push(character)?;
        }
    }
    Ok(())
}

// The text of a file.
fn text_of(alloc: Global, file: &Rows) -> Result<String, Fail> {
    let mut text = String::from_str(alloc, file.header)?;
    for number in FIRST..FIRST + COUNT {
        let number = format!(in alloc; "{number}")?;
        push_rows(&mut text, file.rows, number.as_str())?;
    }
    Ok(text)
}

// Folders that hold the dataset.
fn large_folders(alloc: Global) -> Result<MemoryFolders, Fail> {
    let mut folders = MemoryFolders::new(alloc, 100_000_000, None);
    for file in FILES {
        folders.put("f1", file.name, text_of(alloc, file)?.as_bytes())?;
    }
    Ok(folders)
}

// The last id of each kind, with its number.
const LAST: &[(Kind, &str, usize)] = &[
    (Kind::Agency, "A169999", 69_999),
    (Kind::Stop, "S169999", 69_999),
    (Kind::Route, "R169999", 69_999),
    (Kind::Service, "C169999", 69_999),
    (Kind::Trip, "V169999", 209_999),
];

// Each kind has all its rows, and the last id the last number.
fn assert_whole(rt: &impl Abort, feed: &Feed) {
    let counts = [
        feed.agency_count(),
        feed.stop_count(),
        feed.route_count(),
        feed.service_count(),
        feed.transfers().len(),
        feed.parts().headsigns.len(),
    ];
    assert_is(rt, counts, [70_000; 6], "rows");
    assert_is(rt, feed.trip_count(), 210_000, "trips");
    for (kind, id, number) in LAST {
        assert_is(rt, number_of(feed, *kind, id), Some(*number), *id);
    }
}

// The headsigns have the same numbers in both feeds.
fn assert_same_headsigns(rt: &impl Abort, feed: &Feed, other: &Feed) {
    let headsigns = feed.parts().headsigns.as_slice();
    let others = other.parts().headsigns.as_slice();
    for (headsign, other) in headsigns.iter().zip(others) {
        assert_is(rt, headsign.as_str(), other.as_str(), "headsigns");
    }
}

// Written and read again under another random state it is the same.
fn assert_reads_back<R: Abort + RandomSource>(
    rt: &R,
    alloc: Global,
    feed: &Feed,
) -> Result<(), Fail> {
    let mut folders = MemoryFolders::new(alloc, 100_000_000, None);
    write_tables(rt, alloc, feed, &mut folders)?;
    let other = read_by_draft(alloc, RandomState::new(rt)?, &mut folders, "again")?;
    assert_whole(rt, &other);
    assert_same(rt, alloc, feed, &other)?;
    assert_same_headsigns(rt, feed, &other);
    assert_longer(rt, alloc, feed)
}

// A file of a feed is longer than 10,000,000 bytes, and none longer than 100,000,000.
fn assert_longer(rt: &impl Abort, alloc: Global, feed: &Feed) -> Result<(), Fail> {
    for (limit, is_passed) in [(10_000_000, true), (100_000_000, false)] {
        assert_is(rt, feed.has_longer_file(alloc, limit)?, is_passed, limit);
    }
    Ok(())
}

// A stop with its lanes, and a route with the number of its patterns.
struct Case {
    stop: &'static str,
    lanes: Wanted,
    route: &'static str,
    patterns: usize,
}

const CASES: &[Case] = &[
    Case {
        stop: "S100000",
        lanes: Wanted(70_000, 0, 0, 28_800),
        route: "R100000",
        patterns: 70_000,
    },
    Case {
        stop: "S100001",
        lanes: Wanted(0, 70_000, 0, 23_400),
        route: "R100001",
        patterns: 70_000,
    },
    Case {
        stop: "S100002",
        lanes: Wanted(1, 0, 0, 32_400),
        route: "R100002",
        patterns: 1,
    },
];

// Each event of the stop stands in a lane, and each trip of the route in a pattern.
fn assert_case(rt: &impl Abort, alloc: Global, feed: &Feed, case: &Case) -> Result<(), Fail> {
    let stop = stop_named(rt, feed, case.stop);
    assert_lanes(rt, alloc, feed, stop, Times::Given, case.lanes, case.stop)?;
    let Some(route) = feed.route(case.route) else {
        panic!(rt; "no route {}", case.route);
    };
    let found = patterns(alloc, feed, route)?;
    assert_is(rt, found.len(), case.patterns, case.route);
    Ok(())
}

// A lane that looked for each event from the first on would look at 49,000,000,000 of them.
const ROUNDS: u32 = 20;

// The event after each of these is the next one.
fn assert_next(
    rt: &impl Abort,
    feed: &Feed,
    lane: &ListLane,
    steps: &mut Steps,
    events: &[(ServiceNo, Event)],
) {
    for pair in events.windows(2) {
        if let [(_, event), (_, after)] = pair {
            assert_is(
                rt,
                lane.next(feed, event, steps),
                Some(*after),
                "the next event",
            );
        }
    }
}

// The one lane of the trips V finds what follows an event, however long it is.
fn assert_searched(rt: &impl Abort, alloc: Global, feed: &Feed) -> Result<(), Fail> {
    let stop = stop_named(rt, feed, "S100002");
    let events = flat_events(alloc, feed, stop, Times::Given)?;
    let (lanes, mut steps) = StopLanes::build(alloc, feed, stop, Times::Given)?;
    let [lane] = lanes.lists() else {
        panic!(rt; "{} lists", lanes.lists().len());
    };
    for _ in 0..ROUNDS {
        assert_next(rt, feed, lane, &mut steps, events.as_slice());
    }
    assert_is(rt, steps.count(), 1_399_980, "steps");
    Ok(())
}

// Each service has a calendar row of 1 April and an exception of 2 April.
// On each side of the 2nd one of them stays.
fn assert_trimmed<R: Abort + RandomSource>(rt: &R, alloc: Global, feed: &Feed) -> Result<(), Fail> {
    for (side, kept, lost, header) in [
        (Side::Before, File::Calendar, File::CalendarDates, 31),
        (Side::From, File::CalendarDates, File::Calendar, 88),
    ] {
        let cut = cut_at(rt, side, "20240402");
        let trimmed = feed.trimmed(alloc, RandomState::new(rt)?, cut)?;
        assert_whole(rt, &trimmed);
        assert_same_headsigns(rt, feed, &trimmed);
        assert_others(rt, alloc, feed, &trimmed)?;
        assert_same_file(rt, alloc, feed, &trimmed, kept)?;
        let rest = trimmed.file_text(alloc, lost)?;
        assert_is(rt, rest.len(), header, "bytes of the header");
    }
    Ok(())
}

#[test]
fn a_large_feed_is_whole(rt: HostRuntime) -> Result<(), Fail> {
    let mut folders = large_folders(rt.alloc())?;
    let random = RandomState::new(&rt)?;
    let feed = read_feed(rt.alloc(), random, &mut folders, "f1")?;
    assert_whole(&rt, &feed);
    for case in CASES {
        assert_case(&rt, rt.alloc(), &feed, case)?;
    }
    assert_searched(&rt, rt.alloc(), &feed)?;
    assert_trimmed(&rt, rt.alloc(), &feed)?;
    assert_reads_back(&rt, rt.alloc(), &feed)
}
