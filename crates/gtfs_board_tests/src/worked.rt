//! Worked boards: their lines over the feed and over an index, pages of every length, each opened
//! above the last key of the one before, and what bounds them.

use crate::assertions::{assert_is, assert_page, assert_text};
use crate::cases::{ALL, Case, END_OF_2011};
use crate::opening::{Fixture, Opening};
use crate::pages::assert_joined;
use gtfs_board::{Board, BoardFault, Span, StopIndex, Times};
use gtfs_days::Zone;
use gtfs_feed::Feed;
use gtfs_fixtures::{Clocks, feed_with};
use std::alloc::Global;
use std::process::Abort;
use std::test::Fail;

#[test]
fn boards_are_those_that_were_worked_out(rt: HostRuntime) -> Result<(), Fail> {
    for cases in ALL {
        for case in cases {
            let fixture = Fixture::of_files(&rt, rt.alloc(), case.files, case.clocks)?;
            let opening = fixture.opening(case.stop, case.span, case.times);
            assert_case(&rt, rt.alloc(), &opening, case)?;
        }
    }
    Ok(())
}

fn assert_case(
    rt: &impl Abort,
    alloc: Global,
    opening: &Opening<'_>,
    case: &Case,
) -> Result<(), Fail> {
    assert_text(
        rt,
        opening.listed(rt, alloc, case.after),
        case.lines,
        case.what,
    )?;
    let page = opening.page(rt, alloc, case.after, u64::MAX);
    assert_page(rt, page, case.lines, case.what)?;
    let bounds = opening.bounds(rt, alloc, None)?;
    let found = (bounds.lanes, bounds.greatest, bounds.most_held());
    assert_is(rt, found, (case.lanes, case.greatest, case.held), case.what);
    assert_joined(rt, alloc, opening, case)
}

// How a board of these is refused, if it is: over the feed, and over an index.
fn refused(
    alloc: Global,
    (feed, index): (&Feed, &StopIndex<'_>),
    zone: &Zone,
    stop: &str,
    span: Span,
) -> (Option<BoardFault>, Option<BoardFault>) {
    let of_feed = Board::open(alloc, feed, zone, stop, span, None, Times::Given).err();
    let of_index = Board::open_indexed(alloc, index, zone, stop, span, None).err();
    (of_feed, of_index)
}

// A stop and a span of the last two days of 2011, where clocks go back, and how its board is
// refused, if it is.
const REFUSED: &[(&str, i64, i64, Option<BoardFault>)] = &[
    ("S9", 0, 1, Some(BoardFault::UnknownStop)),
    ("", 0, 1, Some(BoardFault::UnknownStop)),
    ("s1", 0, 1, Some(BoardFault::UnknownStop)),
    ("S1 ", 0, 1, Some(BoardFault::UnknownStop)),
    ("S9", 1, 0, Some(BoardFault::UnknownStop)),
    ("", 1, 0, Some(BoardFault::UnknownStop)),
    ("s1", 1, 0, Some(BoardFault::UnknownStop)),
    ("S1 ", 1, 0, Some(BoardFault::UnknownStop)),
    (
        "S1",
        1_711_958_400,
        1_711_958_399,
        Some(BoardFault::BadSpan),
    ),
    // from the origin of 30 December until that of 31 December
    (
        "S1",
        1_325_275_200,
        1_325_217_600,
        Some(BoardFault::BadSpan),
    ),
    ("S1", 1_325_217_600, 1_325_275_200, None),
    ("S1", 0, 1_000_000_000_000, Some(BoardFault::BadSpan)),
    ("S1", -1_000_000_000_000, 0, Some(BoardFault::BadSpan)),
    ("S1", i64::MIN, i64::MAX, Some(BoardFault::BadSpan)),
    ("S1", -999_999_999_999, 999_999_999_999, None),
];

#[test]
fn a_board_is_of_a_stop_and_a_span(rt: HostRuntime) -> Result<(), Fail> {
    let feed = feed_with(&rt, rt.alloc(), END_OF_2011)?;
    let index = StopIndex::build(rt.alloc(), &feed, Times::Given)?;
    let zone = Clocks::GoesBack.zone(rt.alloc())?;
    for (stop, from, until, fault) in REFUSED {
        let span = Span {
            from: *from,
            until: *until,
        };
        let found = refused(rt.alloc(), (&feed, &index), &zone, stop, span);
        let is_valid = *from <= *until && *fault != Some(BoardFault::BadSpan);
        assert_is(&rt, found, (*fault, *fault), stop);
        assert_is(&rt, span.is_valid(), is_valid, from);
    }
    Ok(())
}
