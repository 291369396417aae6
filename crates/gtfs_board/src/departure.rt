ghost use Rattle.std.specs.Prelude.{◌≡◌, ◌≤◌, ◌++◌, codes, length};
ghost use Rattle.gtfs_board.specs.BoardLines.{mark_text};
ghost use Rattle.gtfs_board.specs.ShownTrips.{mark_if};

use crate::key::Key;

/// How the line of a departure is marked.
#[derive(Clone, Copy, Debug, PartialEq, Eq)]
pub enum Mark {
    /// `s`: the run keeps a timetable.
    Scheduled,
    /// `f`: the run is one of a row of frequencies.txt whose `exact_times` is 0,
    /// so its times are not exact.
    Frequency,
    /// `si`: as `s`, and the stop time has neither an arrival nor a departure of its own,
    /// so its time is one of an even pace.
    ScheduledFilled,
    /// `fi`: as `f`, and the stop time has neither.
    FrequencyFilled,
}

impl Mark {
    // The mark of a run, whose times are exact or not, at a stop time,
    // which has no time of its own or one.
    pub(crate) fn new(is_inexact: bool, is_untimed: bool) -> Mark
        ensures { result ≡ mark_if is_inexact is_untimed }
    {
        match (is_inexact, is_untimed) {
            (false, false) => Mark::Scheduled,
            (false, true) => Mark::ScheduledFilled,
            (true, false) => Mark::Frequency,
            (true, true) => Mark::FrequencyFilled,
        }
    }

    // How a line ends: a tab, the mark's letters and a line feed.
    pub(crate) fn ending(self) -> &'static str
        ensures value { result.now ≡ codes "\t" ++ mark_text self ++ codes "\n" }
        ensures len { length result.now ≤ 4 }
    {
        match self {
            Mark::Scheduled => "\ts\n",
            Mark::Frequency => "\tf\n",
            Mark::ScheduledFilled => "\tsi\n",
            Mark::FrequencyFilled => "\tfi\n",
        }
    }
}

/// A departure as a board lists it. The feed lends its texts.
#[derive(Clone, Copy, Debug)]
pub struct Departure<'a> {
    /// Its position on the board.
    pub key: Key<'a>,
    /// `stop_id` of the stop from which it leaves, which may be a platform of the board's station.
    pub stop: &'a str,
    /// `route_short_name`, or where that is empty `route_long_name`.
    pub route: &'a str,
    /// `stop_headsign`, or where that is empty `trip_headsign`; empty where both are.
    pub headsign: &'a str,
    /// Whether the times of its run are exact, and whether its stop time has a time of its own.
    pub mark: Mark,
}
