//! Boards of made datasets: those of the feed are those of its index, within their bounds, and
//! above each key stands what is left. That they are the right ones a second program tells.

use crate::assertions::assert_holds;
use crate::opening::{Fixture, Opening};
use crate::pages::last_key;
use gtfs_board::{Span, Times};
use gtfs_fixtures::{Clocks, STOPS};
use std::alloc::Global;
use std::process::Abort;
use std::test::Fail;

// Around the instant at which two of the zones move their clocks, which is 1,325,239,200: all that
// runs, a day, an hour, and the time before.
const SPANS: [Span; 4] = [
    Span {
        from: 1_324_000_000,
        until: 1_327_000_000,
    },
    Span {
        from: 1_325_203_200,
        until: 1_325_289_600,
    },
    Span {
        from: 1_325_239_200,
        until: 1_325_242_800,
    },
    Span {
        from: 1_325_000_000,
        until: 1_325_239_201,
    },
];

// Every board of a feed in a zone. How many lines they have.
fn count_lines(rt: &impl Abort, alloc: Global, fixture: &Fixture) -> Result<usize, Fail> {
    let mut count = 0usize;
    for stop in STOPS {
        for span in SPANS {
            for times in [Times::Given, Times::Interpolated] {
                let lines = fixture.opening(stop, span, times).listed(rt, alloc, "")?;
                count = count.saturating_add(lines.lines().count());
            }
        }
    }
    Ok(count)
}

#[test]
fn made_boards_stay_within_their_bounds(rt: HostRuntime) -> Result<(), Fail> {
    for number in 0..4 {
        for clocks in Clocks::ALL {
            let fixture = Fixture::made(&rt, rt.alloc(), number, clocks)?;
            let count = count_lines(&rt, rt.alloc(), &fixture)?;
            assert_holds(&rt, count > 100, format_args!("{count} lines"));
        }
    }
    Ok(())
}

// Above the key of each line of a board stand the lines after it.
fn assert_rests(
    rt: &impl Abort,
    alloc: Global,
    opening: &Opening<'_>,
    whole: &str,
) -> Result<(), Fail> {
    let mut left = whole.lines().count();
    assert_holds(rt, left > 5, format_args!("{left} lines"));
    for line in whole.lines() {
        left = left.saturating_sub(1);
        let rest = opening.listed(rt, alloc, last_key(line))?;
        let is_rest = whole.ends_with(rest.as_str()) && rest.lines().count() == left;
        assert_holds(rt, is_rest, line);
    }
    Ok(())
}

#[test]
fn above_each_key_of_a_made_board_stands_what_is_left(rt: HostRuntime) -> Result<(), Fail> {
    let span = Span {
        from: 1_325_030_400,
        until: 1_325_462_400,
    };
    for (number, clocks, times) in [
        (6, Clocks::GoesBack, Times::Given),
        (7, Clocks::SkipsADay, Times::Interpolated),
    ] {
        let fixture = Fixture::made(&rt, rt.alloc(), number, clocks)?;
        let opening = fixture.opening("P", span, times);
        let whole = opening.listed(&rt, rt.alloc(), "")?;
        assert_rests(&rt, rt.alloc(), &opening, whole.as_str())?;
    }
    Ok(())
}
