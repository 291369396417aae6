//! What passes a stop: each case is a change to the small dataset,
//! with the events that it has at one stop.

use crate::assertions::assert_is;
use crate::full::FULL;
use crate::lanes::{Wanted, assert_lanes};
use crate::named::{service_id, stop_named, trip_id};
use crate::unions::assert_unions;
use crate::{ids, patterns, timepoints};
use gtfs_feed::Feed;
use gtfs_fixtures::{FileText, feed_with, made_feed};
use gtfs_rows::ServiceNo;
use gtfs_runs::{Event, Times, flat_events};
use std::alloc::Global;
use std::process::Abort;
use std::random::RandomSource;
use std::test::Fail;

/// A change to the small dataset, with what passes a stop then, by given times and by filled ones
/// where these are others.
pub(crate) struct Case {
    pub(crate) what: &'static str,
    pub(crate) files: &'static [FileText],
    pub(crate) stop: &'static str,
    pub(crate) given: Passes,
    pub(crate) filled: Option<Passes>,
}

/// For each event of a stop its service, second, trip, run, sequence and row; and the lanes.
pub(crate) struct Passes(pub(crate) &'static str, pub(crate) Wanted);

// Of trips without frequencies.
const LISTED: &[Case] = &[
    Case {
        what: "a trip",
        files: &[],
        stop: "S1",
        given: Passes("C1 28800 T1 28800 1 0\n", Wanted(1, 0, 0, 28_800)),
        filled: None,
    },
    Case {
        what: "a stop without a trip",
        files: &[],
        stop: "S3",
        given: Passes("", Wanted::NONE),
        filled: None,
    },
    Case {
        what: "a last stop time is no departure",
        files: &[],
        stop: "S2",
        given: Passes("", Wanted::NONE),
        filled: None,
    },
    Case {
        what: "a trip without stop times has no run",
        files: &[("stop_times.txt", STOP_TIMES)],
        stop: "S1",
        given: Passes("", Wanted::NONE),
        filled: None,
    },
    Case {
        what: "one stop time is the last, and no departure",
        files: &[(
            "stop_times.txt",
            "trip_id,arrival_time,departure_time,stop_id,stop_sequence\nT1,08:00:00,08:00:00,S1,1\n",
        )],
        stop: "S1",
        given: Passes("", Wanted::NONE),
        filled: None,
    },
    Case {
        what: "two trips of one service past midnight",
        files: &[
            (
                "trips.txt",
                "route_id,service_id,trip_id\nR1,C1,A1\nR1,C1,A2\n",
            ),
            (
                "stop_times.txt",
                "trip_id,arrival_time,departure_time,stop_id,stop_sequence\n\
A1,25:10:00,25:10:00,S1,1\nA1,25:20:00,25:20:00,S2,2\nA2,01:10:00,01:10:00,S1,1\nA2,01:20:00,01:20:00,S2,2\n",
            ),
        ],
        stop: "S1",
        given: Passes(
            "C1 4200 A2 4200 1 0\nC1 90600 A1 90600 1 0\n",
            Wanted(1, 0, 0, 90_600),
        ),
        filled: None,
    },
    Case {
        what: "two trips at one second stand by their ids",
        files: &[
            (
                "trips.txt",
                "route_id,service_id,trip_id\nR1,C1,T2\nR1,C1,T10\n",
            ),
            (
                "stop_times.txt",
                "trip_id,arrival_time,departure_time,stop_id,stop_sequence\n\
T2,25:10:00,25:10:00,S1,1\nT2,25:20:00,25:20:00,S2,2\nT10,25:10:00,25:10:00,S1,3\nT10,25:30:00,25:30:00,S2,4\n",
            ),
        ],
        stop: "S1",
        given: Passes(
            "C1 90600 T10 90600 3 0\nC1 90600 T2 90600 1 0\n",
            Wanted(1, 0, 0, 90_600),
        ),
        filled: None,
    },
    Case {
        what: "two services do not share a lane",
        files: &[
            ("calendar.txt", TWO_SERVICES),
            (
                "trips.txt",
                "route_id,service_id,trip_id\nR1,C2,T1\nR1,C1,T2\n",
            ),
            (
                "stop_times.txt",
                "trip_id,arrival_time,departure_time,stop_id,stop_sequence\n\
T1,08:00:00,08:00:00,S1,1\nT1,08:10:00,08:10:00,S2,2\nT2,09:00:00,09:00:00,S1,1\nT2,09:10:00,09:10:00,S2,2\n",
            ),
        ],
        stop: "S1",
        given: Passes(
            "C1 32400 T2 32400 1 0\nC2 28800 T1 28800 1 0\n",
            Wanted(2, 0, 0, 32_400),
        ),
        filled: None,
    },
    Case {
        what: "two lists of stops do not share a lane",
        files: &[
            (
                "trips.txt",
                "route_id,service_id,trip_id\nR1,C1,T1\nR1,C1,T2\n",
            ),
            (
                "stop_times.txt",
                "trip_id,arrival_time,departure_time,stop_id,stop_sequence\n\
T1,08:00:00,08:00:00,S1,1\nT1,08:10:00,08:10:00,S2,2\n\
T2,09:00:00,09:00:00,S1,1\nT2,09:10:00,09:10:00,S2,2\nT2,09:20:00,09:20:00,S3,3\n",
            ),
        ],
        stop: "S1",
        given: Passes(
            "C1 28800 T1 28800 1 0\nC1 32400 T2 32400 1 0\n",
            Wanted(2, 0, 0, 32_400),
        ),
        filled: None,
    },
];

const STOP_TIMES: &str = "trip_id,arrival_time,departure_time,stop_id,stop_sequence\n";

const TWO_SERVICES: &str =
    "service_id,monday,tuesday,wednesday,thursday,friday,saturday,sunday,start_date,end_date\n\
C2,1,1,1,1,1,1,1,20240401,20240401\nC1,1,1,1,1,1,1,1,20240401,20240401\n";

// Of stop times.
const STOPPING: &[Case] = &[
    Case {
        what: "a stop time with pick-up type 1 is no departure",
        files: &[(
            "stop_times.txt",
            "trip_id,arrival_time,departure_time,stop_id,stop_sequence,pickup_type\n\
T1,08:00:00,08:00:00,S1,1,\nT1,08:10:00,08:10:00,S2,2,\nT1,08:20:00,08:20:00,S1,3,1\nT1,08:30:00,08:30:00,S1,4,\n",
        )],
        stop: "S1",
        given: Passes("C1 28800 T1 28800 1 0\n", Wanted(1, 0, 0, 28_800)),
        filled: None,
    },
    Case {
        what: "pick-up types 2 and 3 are departures, and so is one without a drop-off",
        files: &[(
            "stop_times.txt",
            "trip_id,arrival_time,departure_time,stop_id,stop_sequence,pickup_type,drop_off_type\n\
T1,08:00:00,08:00:00,S1,1,2,0\nT1,08:10:00,08:10:00,S1,2,3,1\nT1,08:20:00,08:20:00,S2,3,0,0\n",
        )],
        stop: "S1",
        given: Passes(
            "C1 28800 T1 28800 1 0\nC1 29400 T1 28800 2 1\n",
            Wanted(2, 0, 0, 29_400),
        ),
        filled: None,
    },
    Case {
        what: "a trip leaves one stop twice, and its stop times stand in any order",
        files: &[(
            "stop_times.txt",
            "trip_id,arrival_time,departure_time,stop_id,stop_sequence\n\
T1,08:20:00,08:20:00,S2,10\nT1,08:05:00,08:06:00,S1,9\nT1,08:00:00,08:01:00,S1,07\n",
        )],
        stop: "S1",
        given: Passes(
            "C1 28860 T1 28860 7 0\nC1 29160 T1 28860 9 1\n",
            Wanted(2, 0, 0, 29_160),
        ),
        filled: None,
    },
    Case {
        what: "an arrival stands for a departure that is missing, and an untimed stop time is filled",
        files: &[(
            "stop_times.txt",
            "trip_id,arrival_time,departure_time,stop_id,stop_sequence\n\
T1,08:00:00,,S1,1\nT1,,,S1,2\nT1,08:05:00,,S1,3\nT1,08:10:00,08:10:00,S2,4\n",
        )],
        stop: "S1",
        given: Passes(
            "C1 28800 T1 28800 1 0\nC1 29100 T1 28800 3 2\n",
            Wanted(2, 0, 0, 29_100),
        ),
        filled: Some(Passes(
            "C1 28800 T1 28800 1 0\nC1 28950 T1 28800 2 1\nC1 29100 T1 28800 3 2\n",
            Wanted(2, 0, 1, 29_100),
        )),
    },
    Case {
        what: "departures of one trip at one second stand by sequence",
        files: &[(
            "stop_times.txt",
            "trip_id,arrival_time,departure_time,stop_id,stop_sequence\n\
T1,08:00:00,08:00:00,S1,1\nT1,08:00:00,08:00:00,S1,2\nT1,08:00:00,08:00:00,S2,3\n",
        )],
        stop: "S1",
        given: Passes(
            "C1 28800 T1 28800 1 0\nC1 28800 T1 28800 2 1\n",
            Wanted(2, 0, 0, 28_800),
        ),
        filled: None,
    },
];

const STATION: &str = "stop_id,stop_name,stop_lat,stop_lon,location_type,parent_station\n\
S1,Mill,52.5,13.4,,S3\nS2,Lake,52.6,13.5,0,S3\nS3,Hill,52.7,13.6,1,\nS4,Door,52.7,13.6,2,S3\nS5,Pond,52.8,13.6,0,\n";

const ABOUT_THE_STATION: &str = "trip_id,arrival_time,departure_time,stop_id,stop_sequence\n\
T1,08:00:00,08:00:00,S1,1\nT1,08:10:00,08:10:00,S5,2\nT1,08:20:00,08:20:00,S2,3\nT1,08:30:00,08:30:00,S5,4\n";

// Of a station with two platforms and an entrance.
const STATIONS: &[Case] = &[
    Case {
        what: "a station has the departures of its platforms",
        files: &[
            ("stops.txt", STATION),
            ("stop_times.txt", ABOUT_THE_STATION),
        ],
        stop: "S3",
        given: Passes(
            "C1 28800 T1 28800 1 0\nC1 30000 T1 28800 3 2\n",
            Wanted(2, 0, 0, 30_000),
        ),
        filled: None,
    },
    Case {
        what: "a platform has its own",
        files: &[
            ("stops.txt", STATION),
            ("stop_times.txt", ABOUT_THE_STATION),
        ],
        stop: "S2",
        given: Passes("C1 30000 T1 28800 3 2\n", Wanted(1, 0, 0, 30_000)),
        filled: None,
    },
    Case {
        what: "an entrance has none",
        files: &[
            ("stops.txt", STATION),
            ("stop_times.txt", ABOUT_THE_STATION),
        ],
        stop: "S4",
        given: Passes("", Wanted::NONE),
        filled: None,
    },
];

// Of frequencies.
const PERIODIC: &[Case] = &[
    Case {
        what: "a run at the end of a period is none, and the trip's own times are none",
        files: &[(
            "frequencies.txt",
            "trip_id,start_time,end_time,headway_secs,exact_times\n\
T1,06:00:00,07:00:00,1800,0\nT1,07:00:00,08:00:00,1800,1\n",
        )],
        stop: "S1",
        given: Passes(
            "C1 21600 T1 21600 1 0\nC1 23400 T1 23400 1 0\nC1 25200 T1 25200 1 0\nC1 27000 T1 27000 1 0\n",
            Wanted(0, 2, 0, 27_000),
        ),
        filled: None,
    },
    Case {
        what: "a period that ends a second after a run has it",
        files: &[(
            "frequencies.txt",
            "trip_id,start_time,end_time,headway_secs\nT1,06:00:00,06:30:01,1800\n",
        )],
        stop: "S1",
        given: Passes(
            "C1 21600 T1 21600 1 0\nC1 23400 T1 23400 1 0\n",
            Wanted(0, 1, 0, 23_400),
        ),
        filled: None,
    },
    Case {
        what: "the greatest headway makes one run",
        files: &[(
            "frequencies.txt",
            "trip_id,start_time,end_time,headway_secs\nT1,00:00:00,999:59:59,2147483647\n",
        )],
        stop: "S1",
        given: Passes("C1 0 T1 0 1 0\n", Wanted(0, 1, 0, 0)),
        filled: None,
    },
    Case {
        what: "the last run passes its second stop at the latest second",
        files: &[
            (
                "stop_times.txt",
                "trip_id,arrival_time,departure_time,stop_id,stop_sequence\n\
T1,00:00:00,00:00:00,S1,1\nT1,999:59:59,999:59:59,S1,2\nT1,999:59:59,999:59:59,S2,3\n",
            ),
            (
                "frequencies.txt",
                "trip_id,start_time,end_time,headway_secs,exact_times\nT1,999:59:58,999:59:59,1,0\n",
            ),
        ],
        stop: "S1",
        given: Passes(
            "C1 3599998 T1 3599998 1 0\nC1 7199997 T1 3599998 2 1\n",
            Wanted(0, 2, 0, 7_199_997),
        ),
        filled: None,
    },
    Case {
        what: "runs at one second stand by trip, then by run",
        files: &[
            (
                "trips.txt",
                "route_id,service_id,trip_id\nR1,C1,T1\nR1,C1,T2\n",
            ),
            (
                "stop_times.txt",
                "trip_id,arrival_time,departure_time,stop_id,stop_sequence\n\
T1,08:00:00,08:00:00,S1,1\nT1,08:10:00,08:10:00,S1,2\nT1,08:20:00,08:20:00,S2,3\n\
T2,06:10:00,06:10:00,S1,1\nT2,06:20:00,06:20:00,S2,2\n",
            ),
            (
                "frequencies.txt",
                "trip_id,start_time,end_time,headway_secs\nT1,06:00:00,06:20:00,600\n",
            ),
        ],
        stop: "S1",
        given: Passes(
            "C1 21600 T1 21600 1 0\nC1 22200 T1 21600 2 1\nC1 22200 T1 22200 1 0\nC1 22200 T2 22200 1 0\n\
C1 22800 T1 22200 2 1\n",
            Wanted(1, 2, 0, 22_800),
        ),
        filled: None,
    },
];

// For each event its service, second, trip, run, sequence and row.
fn shown(alloc: Global, feed: &Feed, events: &[(ServiceNo, Event)]) -> Result<String, Fail> {
    let mut text = String::new(alloc);
    for (service, event) in events {
        let line = format!(in alloc;
            "{} {} {} {} {} {}\n",
            service_id(feed, *service),
            event.at,
            trip_id(feed, event.trip),
            event.run,
            event.seq,
            event.row
        )?;
        text.push_str(&line)?;
    }
    Ok(text)
}

fn assert_passes(
    rt: &impl Abort,
    alloc: Global,
    feed: &Feed,
    case: &Case,
    times: Times,
    wanted: &Passes,
) -> Result<(), Fail> {
    let stop = stop_named(rt, feed, case.stop);
    let events = flat_events(alloc, feed, stop, times)?;
    let text = shown(alloc, feed, &events)?;
    let Passes(wanted, lanes) = wanted;
    assert_is(rt, text.as_str(), *wanted, case.what);
    assert_lanes(rt, alloc, feed, stop, times, *lanes, case.what)
}

fn assert_case(rt: &impl Abort, alloc: Global, feed: &Feed, case: &Case) -> Result<(), Fail> {
    assert_passes(rt, alloc, feed, case, Times::Given, &case.given)?;
    let filled = match &case.filled {
        Some(filled) => filled,
        None => &case.given,
    };
    assert_passes(rt, alloc, feed, case, Times::Interpolated, filled)?;
    assert_unions(rt, alloc, feed)
}

fn assert_cases<R: Abort + RandomSource>(
    rt: &R,
    alloc: Global,
    cases: &[Case],
) -> Result<(), Fail> {
    for case in cases {
        let feed = feed_with(rt, alloc, case.files)?;
        assert_case(rt, alloc, &feed, case)?;
    }
    Ok(())
}

const TABLES: [&[Case]; 6] = [
    LISTED,
    STOPPING,
    STATIONS,
    PERIODIC,
    timepoints::BESIDE,
    timepoints::AROUND,
];

#[test]
fn trips_pass_a_stop(rt: HostRuntime) -> Result<(), Fail> {
    for cases in TABLES {
        assert_cases(&rt, rt.alloc(), cases)?;
    }
    Ok(())
}

#[test]
fn the_lanes_of_other_datasets_have_their_events(rt: HostRuntime) -> Result<(), Fail> {
    for files in [
        FULL.as_slice(),
        ids::FILES.as_slice(),
        patterns::FILES.as_slice(),
    ] {
        let feed = feed_with(&rt, rt.alloc(), files)?;
        assert_unions(&rt, rt.alloc(), &feed)?;
    }
    for number in 0..6 {
        let feed = made_feed(&rt, rt.alloc(), number)?;
        assert_unions(&rt, rt.alloc(), &feed)?;
    }
    Ok(())
}

#[test]
fn a_run_each_second_of_a_day_is_one_lane(rt: HostRuntime) -> Result<(), Fail> {
    let frequencies =
        "trip_id,start_time,end_time,headway_secs,exact_times\nT1,00:00:00,24:00:00,1,1\n";
    let feed = feed_with(&rt, rt.alloc(), &[("frequencies.txt", frequencies)])?;
    let stop = stop_named(&rt, &feed, "S1");
    let events = flat_events(rt.alloc(), &feed, stop, Times::Given)?;
    assert_is(&rt, events.len(), 86_400, "events");
    assert_lanes(
        &rt,
        rt.alloc(),
        &feed,
        stop,
        Times::Given,
        EACH_SECOND,
        "each second",
    )
}

const EACH_SECOND: Wanted = Wanted(0, 1, 0, 86_399);
