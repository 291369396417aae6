//! Boards of stops.
ghost use Rattle.std.specs.Prelude.{◌≡◌, ◌≢◌, ◌<◌, ◌≤◌, ◌∷◌, ◌↔◌, [], All, IsOk, true, false, length, IfOk, IfSome, IsErrOf, OnErr, MatchOption, option_map};
ghost use Rattle.gtfs_days.specs.Zone.{IsInstant, zone_origin};
ghost use Rattle.gtfs_rows.specs.RowsInMemory.{content_of_parts};
ghost use Rattle.gtfs_rows.specs.RowsInMemory.{service_ids, stop_ids, text_of_number};
ghost use Rattle.gtfs_runs.specs.Lanes.{latest};
ghost use Rattle.gtfs_runs.specs.StopLanes.{AreLanesOf, lanes_of};
ghost use Rattle.gtfs_board.specs.Board.{AreStepsWithin, IsQueued, SameSettings, is_stop, keys_of, step_count, steps_for_days};
ghost use Rattle.gtfs_rows.specs.Departures.{IsBoard};
ghost use Rattle.gtfs_board.specs.LentKeys.{listed, plain_key};
ghost use Rattle.gtfs_board.specs.OpenedBoard.{HasSettings, IsOpened};
ghost use Rattle.gtfs_board.specs.ShownTrips.{IsShown};
ghost use Rattle.gtfs_board.specs.BoardSpan.{is_span};
ghost use Rattle.gtfs_board.specs.upcoming.Candidates.{taken};
ghost use Rattle.gtfs_times.specs.Filling.{timed};

use crate::departure::Departure;
use crate::floor::floor_of;
use crate::key::Key;
use crate::service_days::Days;
use crate::showing::departure_of;
use crate::span::Span;
use crate::upcoming::Upcoming;
use gtfs_days::Zone;
use gtfs_field::OutOfMemory;
use gtfs_rows::StopNo;
use gtfs_runs::{Feed, Steps, StopIndex, StopLanes, Times};
use std::alloc::Global;
use std::marker::Model;
use std::mem::size_of;
use thiserror::Error;

/// Why no board is opened.
#[derive(Clone, Copy, Debug, PartialEq, Eq, Error)]
pub enum BoardFault {
    /// The feed has no stop of this id, which is judged first.
    #[error("unknown stop")]
    UnknownStop = 1,
    /// The span ends before it begins, or one of its instants has more than twelve digits.
    #[error("bad span")]
    BadSpan = 2,
    /// Memory ran out.
    #[error("out of memory")]
    OutOfMemory = 3,
}

impl From<OutOfMemory> for BoardFault {
    ghost use Rattle.std.specs.Prelude.{◌≡◌};
    ghost use Rattle.gtfs_board.specs.declared.board.BoardFault.TheVariants.{OutOfMemory as no_memory};

    ghost from_gives = { λ _ fault. fault ≡ no_memory };

    fn from(_refused: OutOfMemory) -> BoardFault {
        BoardFault::OutOfMemory
    }
}

/// The departures of a stop in order:
/// those of its place, from one instant until another, on each service day.
///
/// Each departure is taken away as it is told. What waits in memory does not grow with the span: a
/// service day is looked at only once it can hold a departure before all those that wait.
#[derive(Drop)]
pub struct Board<'a> {
    feed: &'a Feed,
    zone: &'a Zone,
    departures: Upcoming<'a>,
}

// A board is small itself:
// beside what it is lent it has the lanes and the queue, and no other collection.
const _: () = prove!(size_of::<Board<'static>>() == 296);

const _: () = prove!(size_of::<Upcoming<'static>>() == 280);

const _: () = prove!(size_of::<Days<'static>>() == 104);

impl<'a> Model for Board<'a> {
    ghost use Rattle.gtfs_board.specs.Board.{BoardValue};
    ghost use Rattle.gtfs_board.specs.OpenedBoard.{IsOpen, board_value};

    ghost Value = { BoardValue };

    ghost view = { λ b. board_value b.feed.now b.zone.now b.departures };

    ghost invariant = { λ b. IsOpen b.feed.now b.departures };
}

impl<'a> Board<'a> {
    /// The board of a stop over a span, or of what lies above a key there.
    /// The key need not be that of a departure.
    ///
    /// The departures of a station are also those of its stops and platforms. A run that starts
    /// on one service day may depart on the next, and is listed by its instant (GTFS Schedule
    /// Reference, `stop_times.txt`). A stop time without a time has no departure under
    /// [`Times::Given`]; under [`Times::Interpolated`] it has one at the time of an even pace,
    /// and the mark of its line says so.
    ///
    /// # Errors
    /// `UnknownStop` where the feed has no stop of this id. Else `BadSpan` where the span is not
    /// valid, as [`Span::is_valid`] says. `OutOfMemory` where memory is refused.
    pub fn open(
        alloc: Global,
        feed: &'a Feed,
        zone: &'a Zone,
        stop: &str,
        span: Span,
        after: Option<&Key<'_>>,
        times: Times,
    ) -> Result<Board<'a>, BoardFault>
        ensures unknown { IsErrOf result BoardFault.UnknownStop
            ↔ (is_stop (content_of_parts feed.now) stop.now ≡ false) }
        ensures bad { IsErrOf result BoardFault.BadSpan
            ↔ ((is_stop (content_of_parts feed.now) stop.now ≡ true) × (is_span span ≡ false)) }
        ensures board { IfOk result (λ b. IsBoard (timed times (content_of_parts feed.now))
            (zone_origin zone.now) stop.now
            span.from span.until (option_map (λ k. plain_key k.now) after.entry) (keys_of b.rest)) }
        ensures shown { IfOk result (λ b. All (IsShown (content_of_parts feed.now)) b.rest) }
        ensures queued { IfOk result IsQueued }
        ensures settings { IfOk result (HasSettings
            (timed times (content_of_parts feed.now)) zone.now
            stop.now span (option_map (λ k. plain_key k.now) after.entry)) }
        ensures steps { IfOk result (λ b. b.steps ≤ steps_for_days b) }
    {
        let number = judged_stop(feed, stop, &span)?;
        let (lanes, steps) = StopLanes::build(alloc, feed, number, times)?;
        let board = Board::of_lanes(alloc, feed, zone, number, span, after, times, lanes, steps)?;
        Ok(board)
    }

    /// The same board, made of an index in place of its feed and its times: with every clause of
    /// [`Board::open`]. It costs nothing for trips that do not call at the place of the stop, as
    /// [`StopLanes::from_index`] says.
    ///
    /// # Errors
    /// Those of [`Board::open`].
    pub fn open_indexed(
        alloc: Global,
        index: &StopIndex<'a>,
        zone: &'a Zone,
        stop: &str,
        span: Span,
        after: Option<&Key<'_>>,
    ) -> Result<Board<'a>, BoardFault>
        ensures unknown { IsErrOf result BoardFault.UnknownStop
            ↔ (is_stop (content_of_parts index.now.feed) stop.now ≡ false) }
        ensures bad { IsErrOf result BoardFault.BadSpan
            ↔ ((is_stop (content_of_parts index.now.feed) stop.now ≡ true)
            × (is_span span ≡ false)) }
        ensures board { IfOk result (λ b. IsBoard
            (timed index.now.times (content_of_parts index.now.feed))
            (zone_origin zone.now) stop.now
            span.from span.until (option_map (λ k. plain_key k.now) after.entry) (keys_of b.rest)) }
        ensures shown { IfOk result (λ b. All (IsShown (content_of_parts index.now.feed)) b.rest) }
        ensures queued { IfOk result IsQueued }
        ensures settings { IfOk result (HasSettings
            (timed index.now.times (content_of_parts index.now.feed)) zone.now
            stop.now span (option_map (λ k. plain_key k.now) after.entry)) }
        ensures steps { IfOk result (λ b. b.steps ≤ steps_for_days b) }
    {
        let feed = index.feed();
        let number = judged_stop(feed, stop, &span)?;
        let (lanes, steps) = StopLanes::from_index(alloc, index, number)?;
        let times = index.times();
        let board = Board::of_lanes(alloc, feed, zone, number, span, after, times, lanes, steps)?;
        Ok(board)
    }

    // The board of these lanes, which are those of a stop of the feed.
    fn of_lanes(
        alloc: Global,
        feed: &'a Feed,
        zone: &'a Zone,
        stop: StopNo,
        span: Span,
        after: Option<&Key<'_>>,
        times: Times,
        lanes: StopLanes,
        steps: Steps,
    ) -> Result<Board<'a>, OutOfMemory>
        requires span { is_span span ≡ true }
        requires lanes { AreLanesOf (timed times (content_of_parts feed.now))
            (text_of_number (stop_ids feed.now) stop.0) (service_ids feed.now) (lanes_of lanes) }
        requires greatest { lanes.greatest ≡ latest (timed times (content_of_parts feed.now))
            (text_of_number (stop_ids feed.now) stop.0) }
        requires steps { steps ≡ 0 }
        ensures { IfOk result (IsOpened times (content_of_parts feed.now) zone.now
            (text_of_number (stop_ids feed.now) stop.0) span
            (option_map (λ k. plain_key k.now) after.entry)) }
    {
        feed.soundness();
        let days = Days {
            alloc,
            feed,
            zone,
            lanes,
            end: span.until - 1,
        };
        let floor = floor_of(feed, days.count(), span.from, after);
        let departures = Upcoming::open(days, floor, steps)?;
        Ok(Board {
            feed,
            zone,
            departures,
        })
    }

    /// Takes the next departure away: None exactly where none is left, and from then on always.
    ///
    /// # Errors
    /// `OutOfMemory` where memory is refused; what is left is then as it was.
    pub fn next(&mut self) -> Result<Option<Departure<'a>>, OutOfMemory>
        ensures first { IfOk result (λ o. MatchOption o
            ((self.old.rest ≡ []) × (self.new.rest ≡ []))
            (λ d. self.old.rest ≡ listed d ∷ self.new.rest)) }
        ensures instant { IfOk result (λ o. IfSome o (λ d. IsInstant d.key.instant)) }
        ensures kept { OnErr result ((self.new.rest ≡ self.old.rest)
            × (self.new.queue ≡ self.old.queue)) }
        ensures settings { SameSettings self.old self.new }
        ensures queued { IsQueued self.new }
        ensures steps { IfOk result (λ o.
            AreStepsWithin (taken o) (step_count self.old) (step_count self.new)) }
    {
        self.feed.soundness();
        match self.departures.next()? {
            Some(candidate) => Ok(Some(departure_of(self.feed, &candidate))),
            None => Ok(None),
        }
    }

    /// How many departures wait in memory: at most as many as the stop has lanes, times the number
    /// of days in a row that can hold departures at one instant.
    pub fn held(&self) -> usize
        ensures { result ≡ length self.now.queue }
    {
        self.departures.held()
    }

    /// How often lanes were asked for a departure.
    pub fn steps(&self) -> u64
        ensures { result ≡ self.now.steps }
    {
        self.departures.steps()
    }

    // The zone of the lines.
    pub(crate) fn zone(&self) -> &'a Zone
        ensures { result.now ≡ self.now.zone }
    {
        self.zone
    }
}

// The number of the stop of an id, if the feed has one and the span is valid. The stop is judged
// first.
fn judged_stop(feed: &Feed, stop: &str, span: &Span) -> Result<StopNo, BoardFault>
    ensures unknown { IsErrOf result BoardFault.UnknownStop
        ↔ (is_stop (content_of_parts feed.now) stop.now ≡ false) }
    ensures bad { IsErrOf result BoardFault.BadSpan
        ↔ ((is_stop (content_of_parts feed.now) stop.now ≡ true) × (is_span span.now ≡ false)) }
    ensures known { is_stop (content_of_parts feed.now) stop.now ≡ true → is_span span.now ≡ true
        → IsOk result }
    ensures stop { IfOk result (λ n. n.0 < length feed.now.stops) }
    ensures named { IfOk result (λ n. text_of_number (stop_ids feed.now) n.0 ≡ stop.now) }
    ensures span { IfOk result (λ n. is_span span.now ≡ true) }
{
    match feed.stop(stop) {
        Some(number) => {
            if span.is_valid() {
                Ok(number)
            } else {
                Err(BoardFault::BadSpan)
            }
        }
        None => Err(BoardFault::UnknownStop),
    }
}
