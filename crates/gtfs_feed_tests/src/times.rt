//! Stop times between timepoints, filled.

use crate::assertions::assert_is;
use gtfs_field::{Clock, OutOfMemory};
use gtfs_rows::{DropOffType, OptionalClock, OptionalHeadsign, PickupType, StopNo, StopRow};
use gtfs_times::{Times, filled, is_to_fill};
use std::alloc::Global;
use std::process::Abort;
use std::test::Fail;

// An arrival and a departure of a stop time in seconds, each of which may be missing.
type Pair = (Option<u32>, Option<u32>);

// What a list of stop times shows, the pairs that are given, and those that are wanted.
type Case = (&'static str, &'static [Pair], &'static [Pair]);

const NONE: Pair = (None, None);

const CASES: &[Case] = &[
    ("no stop times", &[], &[]),
    (
        "two between 08:00:00 and 08:10:01, at 08:03:20 and 08:06:40",
        &[
            (Some(28_800), Some(28_800)),
            NONE,
            NONE,
            (Some(29_401), Some(29_401)),
        ],
        &[
            (Some(28_800), Some(28_800)),
            (Some(29_000), Some(29_000)),
            (Some(29_200), Some(29_200)),
            (Some(29_401), Some(29_401)),
        ],
    ),
    (
        "from a departure to an arrival, where one of both times is enough",
        &[
            (Some(100), Some(200)),
            NONE,
            (Some(301), None),
            NONE,
            (None, Some(400)),
            NONE,
            (Some(500), Some(900)),
        ],
        &[
            (Some(100), Some(200)),
            (Some(250), Some(250)),
            (Some(301), None),
            (Some(350), Some(350)),
            (None, Some(400)),
            (Some(450), Some(450)),
            (Some(500), Some(900)),
        ],
    ),
    (
        "three within a second",
        &[(Some(0), Some(0)), NONE, NONE, NONE, (Some(1), Some(1))],
        &[
            (Some(0), Some(0)),
            (Some(0), Some(0)),
            (Some(0), Some(0)),
            (Some(0), Some(0)),
            (Some(1), Some(1)),
        ],
    ),
    (
        "none before the first time nor after the last",
        &[NONE, (Some(60), None), NONE, (None, Some(80)), NONE],
        &[
            NONE,
            (Some(60), None),
            (Some(70), Some(70)),
            (None, Some(80)),
            NONE,
        ],
    ),
    ("no time at all", &[NONE, NONE], &[NONE, NONE]),
];

// A time of this many seconds, or none.
fn clock(seconds: Option<u32>) -> OptionalClock {
    match seconds {
        Some(seconds) if seconds <= 7_199_999 => {
            OptionalClock::new(Some(Clock::from_seconds(seconds)))
        }
        _ => OptionalClock::new(None),
    }
}

fn seconds(clock: OptionalClock) -> Option<u32> {
    Some(clock.get()?.seconds())
}

fn stop_time(stop_sequence: u32, pair: &Pair) -> StopRow {
    let (arrival, departure) = pair;
    StopRow {
        stop_id: StopNo(0),
        arrival_time: clock(*arrival),
        departure_time: clock(*departure),
        stop_sequence,
        stop_headsign: OptionalHeadsign::new(None),
        pickup_type: PickupType::Regular,
        drop_off_type: DropOffType::Regular,
        timepoint: None,
    }
}

// Stop times with these times, their sequences ever farther apart.
fn stop_times(alloc: Global, pairs: &[Pair]) -> Result<Vec<StopRow>, OutOfMemory> {
    let mut rows = Vec::new(alloc);
    let mut sequence: u32 = 0;
    for pair in pairs {
        sequence = sequence.saturating_mul(7).saturating_add(1);
        rows.push(stop_time(sequence, pair))?;
    }
    Ok(rows)
}

fn assert_filled(rt: &impl Abort, case: &Case, found: &[StopRow]) {
    let (what, _, wanted) = case;
    assert_is(rt, found.len(), wanted.len(), what);
    for (row, pair) in found.iter().zip(*wanted) {
        let pair_of_row = (seconds(row.arrival_time), seconds(row.departure_time));
        assert_is(rt, pair_of_row, *pair, what);
    }
}

#[test]
fn stop_times_are_filled(rt: HostRuntime) -> Result<(), Fail> {
    for case in CASES {
        let rows = stop_times(rt.alloc(), case.1)?;
        let found = filled(rt.alloc(), &rows)?;
        assert_filled(&rt, case, &found);
        let lacks_one = case.1.contains(&NONE);
        assert_is(
            &rt,
            is_to_fill(&rows, Times::Interpolated),
            lacks_one,
            case.0,
        );
        assert_is(&rt, is_to_fill(&rows, Times::Given), false, case.0);
    }
    Ok(())
}

fn departure_at(rows: &[StopRow], index: usize) -> Option<u32> {
    seconds(rows.get(index)?.departure_time)
}

// A body that looks for the next time anew at each stop time would take minutes.
#[test]
fn many_stop_times_are_filled_at_once(rt: HostRuntime) -> Result<(), Fail> {
    const COUNT: usize = 400_000;
    let mut rows = Vec::new(rt.alloc());
    rows.push(stop_time(0, &(Some(0), Some(0))))?;
    rows.resize(COUNT, stop_time(1, &NONE))?;
    rows.push(stop_time(2, &(Some(3_599_999), Some(3_599_999))))?;
    let found = filled(rt.alloc(), &rows)?;
    for (index, wanted) in [(1, Some(8)), (COUNT / 2, Some(1_799_999))] {
        assert_is(&rt, departure_at(&found, index), wanted, index);
    }
    assert_is(&rt, found.len(), COUNT + 1, "stop times");
    Ok(())
}
