//! Departures of a board, one after the other, of which few wait at a time.

use crate::assertions::{assert_is, assert_that};
use crate::merges::{LIMIT, put_files};
use gtfs_board::{Board, Span, StopIndex, Times};
use gtfs_fixtures::{Clocks, FileText, feed_with, read_feed};
use gtfs_table::MemoryFolders;
use std::hash::RandomState;
use std::process::Abort;
use std::test::Fail;

// Three bytes count as far as 16,777,215.
const DEPARTURES: u64 = 20_000_000;

// A run each second of every service day.
const EACH_SECOND: [FileText; 2] = [
    (
        "calendar.txt",
        "service_id,monday,tuesday,wednesday,thursday,friday,saturday,sunday,start_date,end_date\n\
C1,1,1,1,1,1,1,1,19000101,99981231\n",
    ),
    (
        "frequencies.txt",
        "trip_id,start_time,end_time,headway_secs,exact_times\nT1,00:00:00,24:00:00,1,1\n",
    ),
];

// From the origin of the first service day on, in UTC.
const SPAN: Span = Span {
    from: -2_208_988_800,
    until: 253_370_678_400,
};

// The instant of the next departure.
fn next_instant(rt: &impl Abort, board: &mut Board<'_>) -> i64 {
    match board.next() {
        Ok(Some(departure)) => departure.key.instant,
        Ok(None) => panic!(rt; "none is left"),
        Err(fault) => panic!(rt; "{fault}"),
    }
}

// Takes so many departures a second apart, and gives the instant after the last.
fn take(rt: &impl Abort, board: &mut Board<'_>, count: u64) -> i64 {
    let mut wanted = SPAN.from;
    for _ in 0..count {
        let instant = next_instant(rt, board);
        assert_that(rt, instant == wanted, "each second has a departure");
        wanted = wanted.saturating_add(1);
    }
    wanted
}

#[test]
fn many_departures_are_taken_from_one_board(rt: HostRuntime) -> Result<(), Fail> {
    let feed = feed_with(&rt, rt.alloc(), &EACH_SECOND)?;
    let zone = Clocks::Utc.zone(rt.alloc())?;
    let mut board = Board::open(rt.alloc(), &feed, &zone, "S1", SPAN, None, Times::Given)?;
    let after = take(&rt, &mut board, DEPARTURES);
    assert_is(&rt, after, -2_188_988_800, "the instant after the last");
    assert_that(&rt, board.held() <= 4, "four or fewer wait");
    Ok(())
}

// How many departures are left, at most so many.
fn count_left(rt: &impl Abort, board: &mut Board<'_>, most: u64) -> u64 {
    let mut count = 0u64;
    for _ in 0..most {
        match board.next() {
            Ok(Some(_)) => count = count.saturating_add(1),
            Ok(None) => return count,
            Err(fault) => panic!(rt; "{fault}"),
        }
    }
    count
}

// Two runs of 70,000 trips on each of three days.
#[test]
fn a_board_of_many_lanes_is_opened_over_an_index(rt: HostRuntime) -> Result<(), Fail> {
    let mut folders = MemoryFolders::new(rt.alloc(), LIMIT, None);
    put_files(rt.alloc(), &mut folders)?;
    let feed = read_feed(rt.alloc(), RandomState::new(&rt)?, &mut folders, "f1")?;
    let zone = Clocks::Utc.zone(rt.alloc())?;
    let index = StopIndex::build(rt.alloc(), &feed, Times::Given)?;
    let mut board = Board::open_indexed(rt.alloc(), &index, &zone, "S0", SPAN, None)?;
    let count = count_left(&rt, &mut board, 1_000_000);
    assert_is(&rt, count, 420_000, "departures");
    Ok(())
}
