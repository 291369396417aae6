//! Opens boards of a feed in a zone, over the feed and over its index, and holds them to what
//! bounds them.

ghost use Rattle.std.specs.Prelude.{◌<◌, length};

use crate::assertions::{assert_holds, assert_is};
use crate::bounds::Bounds;
use gtfs_board::{Board, Key, Span, StopIndex, Times, push_line, read_key, write_page};
use gtfs_days::Zone;
use gtfs_feed::Feed;
use gtfs_fixtures::{Clocks, FileText, feed_with, made_feed};
use gtfs_rows::StopNo;
use gtfs_table::MemoryOut;
use std::alloc::Global;
use std::process::Abort;
use std::random::RandomSource;
use std::test::Fail;

// No board of a test that is listed to its end has more departures.
const MOST: u64 = 100_000;

// Room for any page of a test.
const ROOM: usize = 200_000;

/// A feed and a zone.
#[derive(Drop)]
pub(crate) struct Fixture {
    feed: Feed,
    zone: Zone,
}

impl Fixture {
    /// The small dataset with these files in place of those with their names.
    pub(crate) fn of_files<R: Abort + RandomSource>(
        rt: &R,
        alloc: Global,
        files: &[FileText],
        clocks: Clocks,
    ) -> Result<Fixture, Fail> {
        Fixture::of_feed(alloc, feed_with(rt, alloc, files)?, clocks)
    }

    /// The made dataset of a number.
    pub(crate) fn made<R: Abort + RandomSource>(
        rt: &R,
        alloc: Global,
        number: u64,
        clocks: Clocks,
    ) -> Result<Fixture, Fail> {
        Fixture::of_feed(alloc, made_feed(rt, alloc, number)?, clocks)
    }

    fn of_feed(alloc: Global, feed: Feed, clocks: Clocks) -> Result<Fixture, Fail> {
        let zone = clocks.zone(alloc)?;
        Ok(Fixture { feed, zone })
    }

    /// Boards of a stop over a span.
    pub(crate) fn opening<'a>(&'a self, stop: &'a str, span: Span, times: Times) -> Opening<'a> {
        Opening {
            feed: &self.feed,
            zone: &self.zone,
            stop,
            span,
            times,
        }
    }
}

/// A stop of a feed, a zone and a span, and the times of rows without any.
#[derive(Clone, Copy)]
pub(crate) struct Opening<'a> {
    feed: &'a Feed,
    zone: &'a Zone,
    stop: &'a str,
    span: Span,
    times: Times,
}

impl<'a> Opening<'a> {
    /// The board above the key of a text, or the whole board where the text is empty.
    pub(crate) fn board(
        &self,
        rt: &impl Abort,
        alloc: Global,
        after: &str,
    ) -> Result<Board<'a>, Fail> {
        let key = key_of(rt, after);
        self.board_above(alloc, key.as_ref())
    }

    fn board_above(&self, alloc: Global, after: Option<&Key<'_>>) -> Result<Board<'a>, Fail> {
        Ok(Board::open(
            alloc, self.feed, self.zone, self.stop, self.span, after, self.times,
        )?)
    }

    /// A page of at most so many lines above the key of a text, and how many it tells.
    pub(crate) fn page(
        &self,
        rt: &impl Abort,
        alloc: Global,
        after: &str,
        limit: u64,
    ) -> Result<(u64, String), Fail> {
        let mut board = self.board(rt, alloc, after)?;
        page(alloc, &mut board, limit)
    }

    /// What bounds the board above a key.
    pub(crate) fn bounds(
        &self,
        rt: &impl Abort,
        alloc: Global,
        after: Option<&Key<'_>>,
    ) -> Result<Bounds, Fail> {
        let stop = stop_named(rt, self.feed, self.stop);
        Ok(Bounds::new(alloc, self.feed, stop, self.span, after, self.times)?)
    }

    /// The lines of the board above the key of a text.
    pub(crate) fn listed(
        &self,
        rt: &impl Abort,
        alloc: Global,
        after: &str,
    ) -> Result<String, Fail> {
        let key = key_of(rt, after);
        self.listed_above(rt, alloc, key.as_ref())
    }

    /// The lines of the board above a key, which need not have a text that reads back:
    /// those of the feed are those of its index, and both boards stay within their bounds.
    pub(crate) fn listed_above(
        &self,
        rt: &impl Abort,
        alloc: Global,
        after: Option<&Key<'_>>,
    ) -> Result<String, Fail> {
        let bounds = self.bounds(rt, alloc, after)?;
        let mut board = self.board_above(alloc, after)?;
        let lines = self.lines(rt, alloc, &mut board, &bounds)?;
        let indexed = self.indexed(rt, alloc, after, &bounds)?;
        assert_is(rt, indexed.as_str(), lines.as_str(), "over an index");
        Ok(lines)
    }

    fn indexed(
        &self,
        rt: &impl Abort,
        alloc: Global,
        after: Option<&Key<'_>>,
        bounds: &Bounds,
    ) -> Result<String, Fail> {
        let index = StopIndex::build(alloc, self.feed, self.times)?;
        let mut board = Board::open_indexed(alloc, &index, self.zone, self.stop, self.span, after)?;
        self.lines(rt, alloc, &mut board, bounds)
    }

    // The lines of all departures of a board, each taken within its bounds.
    fn lines(
        &self,
        rt: &impl Abort,
        alloc: Global,
        board: &mut Board<'_>,
        bounds: &Bounds,
    ) -> Result<String, Fail> {
        let mut text = String::new(alloc);
        for taken in 0..MOST {
            let (held, steps) = (board.held() as u64, board.steps());
            match board.next() {
                Ok(Some(departure)) => {
                    bounds.assert_next(rt, (held, steps), taken, departure.key.instant);
                    push_line(alloc, &mut text, self.zone, &departure)?;
                }
                Ok(None) => {
                    bounds.assert_end(rt, (held, steps), taken, self.span.until);
                    break;
                }
                Err(fault) => panic!(rt; "{fault}"),
            }
        }
        assert_none(rt, board);
        Ok(text)
    }
}

/// Nothing is left of a board.
pub(crate) fn assert_none(rt: &impl Abort, board: &mut Board<'_>) {
    for _ in 0..2 {
        let is_none = matches!(board.next(), Ok(None));
        assert_holds(rt, is_none, "a departure is left");
    }
}

// The key of a text, or none where the text is empty.
fn key_of<'t>(rt: &impl Abort, text: &'t str) -> Option<Key<'t>> {
    if text.is_empty() {
        return None;
    }
    match read_key(text) {
        Ok(key) => Some(key),
        Err(fault) => panic!(rt; "{text}: {fault}"),
    }
}

// The number of a stop, which the feed has to have.
fn stop_named(rt: &impl Abort, feed: &Feed, id: &str) -> StopNo
    ensures { result.0 < length feed.now.stops }
{
    let Some(stop) = feed.stop(id) else {
        panic!(rt; "no stop {id}");
    };
    assert!(rt; stop.0 < feed.stop_count());
    stop
}

/// A page of what is left of a board, and how many lines it tells.
pub(crate) fn page(
    alloc: Global,
    board: &mut Board<'_>,
    limit: u64,
) -> Result<(u64, String), Fail> {
    let mut out = MemoryOut::new(alloc, ROOM)?;
    let count = write_page(alloc, board, limit, &mut out)?;
    let text = String::from_str(alloc, str::from_utf8(out.bytes())?)?;
    Ok((count, text))
}
