//! Pages to outputs that fail after each byte.

use crate::assertions::{assert_holds, assert_is};
use crate::cases::PERIODS;
use crate::opening::{Fixture, Opening, page};
use crate::pages::last_key;
use gtfs_board::{Board, PageFault, write_page};
use gtfs_fixtures::Clocks;
use gtfs_table::{MemoryOut, Out};
use std::alloc::Global;
use std::process::Abort;
use std::test::Fail;

// How many whole lines the text has, and these lines.
fn whole_lines(text: &str) -> (u64, &str) {
    match text.rsplit_once('\n') {
        Some((lines, _)) => (lines.lines().count() as u64, lines),
        None => (0, ""),
    }
}

// What went out of a page to an output with this room, which fails.
fn written(
    rt: &impl Abort,
    alloc: Global,
    board: &mut Board<'_>,
    room: usize,
) -> Result<String, Fail> {
    let mut out = MemoryOut::new(alloc, room)?;
    let fault = write_page(alloc, board, u64::MAX, &mut out).err();
    let text = str::from_utf8(out.bytes())?;
    let (count, _) = whole_lines(text);
    let is_told = fault == Some(PageFault::Out(count)) && out.failures() == 1;
    assert_holds(
        rt,
        is_told && text.len() == room,
        format_args!("room {room}"),
    );
    Ok(String::from_str(alloc, text)?)
}

// A page to an output with this room: what went out is a beginning, and the fault tells the whole
// lines of it. What is left of the board is the rest, or the rest but for the cut line; a board
// above the last key has the whole rest.
fn assert_cut(
    rt: &impl Abort,
    alloc: Global,
    opening: &Opening<'_>,
    room: usize,
) -> Result<(), Fail> {
    let mut board = opening.board(rt, alloc, "")?;
    let text = written(rt, alloc, &mut board, room)?;
    let (_, left) = page(alloc, &mut board, u64::MAX)?;
    let (_, lines) = whole_lines(text.as_str());
    let (_, rest) = opening.page(rt, alloc, last_key(lines), u64::MAX)?;
    let is_kept = are_parts(text.as_str(), rest.as_str()) && is_left(left.as_str(), rest.as_str());
    assert_holds(rt, is_kept, format_args!("room {room}"));
    Ok(())
}

// Whether a text is a beginning of the page, and the rest has all that stands after its whole lines.
fn are_parts(text: &str, rest: &str) -> bool {
    let (count, lines) = whole_lines(text);
    let end = if count == 0 {
        0
    } else {
        lines.len().saturating_add(1)
    };
    PERIODS.lines.starts_with(text)
        && PERIODS.lines.ends_with(rest)
        && end.saturating_add(rest.len()) == PERIODS.lines.len()
}

// Whether at most the line that was cut is missing in what is left.
fn is_left(left: &str, rest: &str) -> bool {
    let missing = rest.lines().count().saturating_sub(left.lines().count());
    rest.ends_with(left) && missing <= 1
}

#[test]
fn an_output_may_fail_after_each_byte(rt: HostRuntime) -> Result<(), Fail> {
    let fixture = Fixture::of_files(&rt, rt.alloc(), PERIODS.files, Clocks::Utc)?;
    let opening = fixture.opening("S1", PERIODS.span, PERIODS.times);
    for room in 0..PERIODS.lines.len() {
        assert_cut(&rt, rt.alloc(), &opening, room)?;
    }
    Ok(())
}
