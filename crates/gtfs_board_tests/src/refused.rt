//! A departure that is refused for want of memory, and asked for again.

use crate::assertions::{assert_holds, assert_is};
use crate::opening::{Fixture, assert_none};
use gtfs_board::{Board, Span, Times};
use gtfs_field::OutOfMemory;
use gtfs_fixtures::{Clocks, FileText};
use std::alloc::Global;
use std::test::Fail;

// The trip of the small dataset runs on eight days.
// A departure that has one opens a later day, which takes memory.
const EIGHT_DAYS: &[FileText] = &[(
    "calendar.txt",
    "service_id,monday,tuesday,wednesday,thursday,friday,saturday,sunday,start_date,end_date\n\
C1,1,1,1,1,1,1,1,20240401,20240408\n",
)];

const SPAN: Span = Span {
    from: 1_711_929_600,
    until: 1_712_620_800,
};

// How many pieces of one size are taken at most.
const PIECES: usize = 20_000;

// Takes pieces of memory of this size until one is refused.
fn take_pieces(alloc: Global, size: usize, taken: &mut Vec<Vec<u8>>) {
    for _ in 0..PIECES {
        let Ok(piece) = Vec::with_capacity(alloc, size) else {
            return;
        };
        if taken.push(piece).is_err() {
            return;
        }
    }
}

// Takes all memory that can be addressed, which is not touched: large pieces first, then those of
// each small size. Where there is too much of it, some is left.
fn take_memory(alloc: Global) -> Result<Vec<Vec<u8>>, OutOfMemory> {
    let mut taken = Vec::with_capacity(alloc, 1_000_000)?;
    for power in 0..34u32 {
        take_pieces(alloc, 1 << (44 - power), &mut taken);
    }
    for step in 0..65 {
        take_pieces(alloc, 1_040 - step * 16, &mut taken);
    }
    Ok(taken)
}

// How many calls found no memory, and how many were refused.
#[derive(Clone, Copy, Debug)]
struct Counts {
    without_memory: u32,
    refused: u32,
}

// When the next departure is, asked for with no memory left,
// and again with memory where it is refused.
fn next_instant(
    alloc: Global,
    board: &mut Board<'_>,
    counts: &mut Counts,
) -> Result<Option<i64>, Fail> {
    let taken = take_memory(alloc)?;
    if Vec::<u64>::with_capacity(alloc, 24).is_err() {
        counts.without_memory = counts.without_memory.saturating_add(1);
    }
    let told: Result<_, _> = instant_of(board);
    drop(taken);
    match told {
        Ok(instant) => Ok(instant),
        Err(_) => {
            counts.refused = counts.refused.saturating_add(1);
            Ok(instant_of(board)?)
        }
    }
}

// When the next departure is.
fn instant_of(board: &mut Board<'_>) -> Result<Option<i64>, OutOfMemory> {
    match board.next() {
        Ok(Some(departure)) => Ok(Some(departure.key.instant)),
        Ok(None) => Ok(None),
        Err(fault) => Err(fault),
    }
}

#[test]
fn a_refused_departure_can_be_asked_for_again(rt: HostRuntime) -> Result<(), Fail> {
    let fixture = Fixture::of_files(&rt, rt.alloc(), EIGHT_DAYS, Clocks::Utc)?;
    let opening = fixture.opening("S1", SPAN, Times::Given);
    let mut board = opening.board(&rt, rt.alloc(), "")?;
    let mut counts = Counts {
        without_memory: 0,
        refused: 0,
    };
    // At 08:00:00 in UTC on each day.
    for departure in [
        1_711_958_400,
        1_712_044_800,
        1_712_131_200,
        1_712_217_600,
        1_712_304_000,
        1_712_390_400,
        1_712_476_800,
        1_712_563_200,
    ] {
        let instant = next_instant(rt.alloc(), &mut board, &mut counts)?;
        assert_is(&rt, instant, Some(departure), "the next instant");
    }
    // An allocator that looks for errors keeps memory for small pieces, however much is taken.
    let is_refused = counts.refused > 0 || counts.without_memory == 0;
    assert_holds(&rt, is_refused, format_args!("{counts:?}"));
    assert_none(&rt, &mut board);
    Ok(())
}
