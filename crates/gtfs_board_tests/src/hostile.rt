//! Boards over all service days, with a run each second.

use crate::assertions::{assert_holds, assert_is};
use crate::opening::Fixture;
use gtfs_board::{Board, Span, Times, push_key};
use gtfs_fixtures::{Clocks, FileText};
use std::alloc::Global;
use std::process::Abort;
use std::test::Fail;

const EVERY_DAY: FileText = (
    "calendar.txt",
    "service_id,monday,tuesday,wednesday,thursday,friday,saturday,sunday,start_date,end_date\n\
C1,1,1,1,1,1,1,1,19000101,99981231\n",
);

const SECONDS: FileText = (
    "frequencies.txt",
    "trip_id,start_time,end_time,headway_secs,exact_times\nT1,00:00:00,24:00:00,1,1\n",
);

// A run each second of every service day.
const EACH_SECOND: &[FileText] = &[EVERY_DAY, SECONDS];

// The same, and beside them another trip at 08:00:00.
const BESIDE_A_TRIP: &[FileText] = &[
    (
        "trips.txt",
        "route_id,service_id,trip_id\nR1,C1,T1\nR1,C1,T2\n",
    ),
    (
        "stop_times.txt",
        "trip_id,arrival_time,departure_time,stop_id,stop_sequence\n\
T1,08:00:00,08:00:00,S1,1\nT1,08:10:00,08:10:00,S2,2\nT2,08:00:00,08:00:00,S1,1\nT2,08:10:00,08:10:00,S2,2\n",
    ),
    EVERY_DAY,
    SECONDS,
];

// From the origin of the first service day until that of the last in UTC.
const ALL_DAYS: Span = Span {
    from: -2_208_988_800,
    until: 253_370_678_400,
};

// Two days can hold each of the first three instants, and the trip has one lane.
#[test]
fn a_call_of_next_makes_a_step_or_two(rt: HostRuntime) -> Result<(), Fail> {
    let fixture = Fixture::of_files(&rt, rt.alloc(), EACH_SECOND, Clocks::Utc)?;
    let opening = fixture.opening("S1", ALL_DAYS, Times::Given);
    let bounds = opening.bounds(&rt, rt.alloc(), None)?;
    assert_is(&rt, bounds.most_held(), 4, "departures that wait");
    let mut board = opening.board(&rt, rt.alloc(), "")?;
    for (taken, next, most_steps) in [
        (0, -2_208_988_800, 2),
        (1, -2_208_988_799, 3),
        (2, -2_208_988_798, 4),
    ] {
        assert_is(&rt, bounds.most_steps(taken, next), most_steps, next);
        let is_kept = board.steps() <= most_steps && board.held() <= 4;
        assert_holds(&rt, is_kept, most_steps);
        let is_next = matches!(board.next(), Ok(Some(found)) if found.key.instant == next);
        assert_holds(&rt, is_next, next);
    }
    Ok(())
}

// Takes so many departures of all days, with at most so many that wait, of which the last has this
// key.
fn assert_long(
    rt: &impl Abort,
    alloc: Global,
    fixture: &Fixture,
    (count, most_held): (u64, usize),
    wanted: &str,
) -> Result<(), Fail> {
    let opening = fixture.opening("S1", ALL_DAYS, Times::Given);
    let mut board = opening.board(rt, alloc, "")?;
    let mut key = String::new(alloc);
    for taken in 0..count {
        assert_holds(rt, board.held() <= most_held, format_args!("after {taken}"));
        key.clear();
        push_next(rt, alloc, &mut board, taken, &mut key)?;
    }
    assert_is(rt, key.as_str(), wanted, "the last key");
    Ok(())
}

// Adds the key of the next departure.
fn push_next(
    rt: &impl Abort,
    alloc: Global,
    board: &mut Board<'_>,
    taken: u64,
    text: &mut String,
) -> Result<(), Fail> {
    match board.next() {
        Ok(Some(departure)) => Ok(push_key(alloc, text, &departure.key)?),
        _ => panic!(rt; "none is told after {taken}"),
    }
}

#[test]
fn a_million_departures_are_taken_and_few_wait(rt: HostRuntime) -> Result<(), Fail> {
    let fixture = Fixture::of_files(&rt, rt.alloc(), EACH_SECOND, Clocks::Utc)?;
    let wanted = "@-2207988801/T1/49599/1/19000112";
    assert_long(&rt, rt.alloc(), &fixture, (1_000_000, 4), wanted)
}

// A lane of each kind.
// The first day has 86,401 departures, and on the second one other departure is before the last.
#[test]
fn few_wait_where_a_trip_stands_beside_runs(rt: HostRuntime) -> Result<(), Fail> {
    let fixture = Fixture::of_files(&rt, rt.alloc(), BESIDE_A_TRIP, Clocks::Utc)?;
    let wanted = "@-2208868803/T1/33597/1/19000102";
    assert_long(&rt, rt.alloc(), &fixture, (120_000, 8), wanted)
}
