//! What bounds a board, by the lanes of its stop and the span.
ghost use Rattle.std.specs.Prelude.{◌<◌, length};

use crate::assertions::assert_holds;
use gtfs_board::{Key, Span};
use gtfs_feed::Feed;
use gtfs_field::OutOfMemory;
use gtfs_rows::StopNo;
use gtfs_runs::{StopLanes, Times};
use std::alloc::Global;
use std::process::Abort;

// How far the origin of a service day lies from midnight of its date in UTC, at most.
const FARTHEST: i64 = 93_599;

const DAY: i64 = 86_400;

/// How many lanes a stop has, the latest second of its events, and where its board begins.
#[derive(Clone, Copy, Debug, PartialEq, Eq)]
pub(crate) struct Bounds {
    pub(crate) lanes: u64,
    pub(crate) greatest: u32,
    start: i64,
}

impl Bounds {
    /// The bounds of the board of a stop over a span above a key.
    pub(crate) fn new(
        alloc: Global,
        feed: &Feed,
        stop: StopNo,
        span: Span,
        after: Option<&Key<'_>>,
        times: Times,
    ) -> Result<Bounds, OutOfMemory>
        requires { stop.0 < length feed.now.stops }
    {
        let (lanes, _steps) = StopLanes::build(alloc, feed, stop, times)?;
        let lists = lanes.lists().len() as u64;
        let filled = lanes.filled().len() as u64;
        let start = match after {
            Some(key) => span.from.max(key.instant),
            None => span.from,
        };
        Ok(Bounds {
            lanes: lists
                .saturating_add(lanes.periods().len() as u64)
                .saturating_add(filled),
            greatest: lanes.greatest(),
            start,
        })
    }

    /// How many departures may wait:
    /// as many as there are lanes, times the days in a row that can hold one instant.
    pub(crate) fn most_held(&self) -> u64 {
        let width = (u64::from(self.greatest) + 187_198) / 86_400 + 1;
        self.lanes.saturating_mul(width)
    }

    /// How many steps may have been made where the next departure is at this instant,
    /// and so many were taken.
    pub(crate) fn most_steps(&self, taken: u64, next: i64) -> u64 {
        taken.saturating_add(self.lanes.saturating_mul(self.reach(next)))
    }

    /// Before the departure at an instant, after so many were taken, as many wait as may, and at
    /// least one; as many steps were made as may have been, and one for each that was taken.
    pub(crate) fn assert_next(
        &self,
        rt: &impl Abort,
        (held, steps): (u64, u64),
        taken: u64,
        next: i64,
    ) {
        let is_kept = 0 < held && held <= self.most_held() && self.are_kept(steps, taken, next);
        let what = format_args!("{held} wait, {steps} steps for {taken} departures");
        assert_holds(rt, is_kept, what);
    }

    /// Where no departure is left of a board until an instant, none waits.
    pub(crate) fn assert_end(
        &self,
        rt: &impl Abort,
        (held, steps): (u64, u64),
        taken: u64,
        until: i64,
    ) {
        let is_kept = held == 0 && self.are_kept(steps, taken, until.saturating_sub(1));
        let what = format_args!("{held} wait, {steps} steps for {taken} departures and no more");
        assert_holds(rt, is_kept, what);
    }

    fn are_kept(&self, steps: u64, taken: u64, next: i64) -> bool {
        taken <= steps && steps <= self.most_steps(taken, next)
    }

    // How many service days can hold an event from the start until an instant: those whose midnight
    // in UTC lies at most the latest second and the farthest origin before the start, and at most
    // the farthest origin after the instant.
    fn reach(&self, instant: i64) -> u64 {
        let earliest = self.start.saturating_sub(i64::from(self.greatest));
        let low = earliest.saturating_sub(FARTHEST).saturating_add(DAY - 1);
        let first = low.div_euclid(DAY).max(-25_567);
        let last = instant
            .saturating_add(FARTHEST)
            .div_euclid(DAY)
            .min(2_932_531);
        if first <= last {
            last.abs_diff(first).saturating_add(1)
        } else {
            0
        }
    }
}
