//! The key of a departure, its order and its text.
ghost use Rattle.std.proofs.Common.{rules};
ghost use Rattle.std.specs.Cmp.{partial_order_from_own_ties};
ghost use Rattle.std.specs.Cmp.Rules.{comparing};
ghost use Rattle.std.specs.Ordering.{on, as_partial_cmp};
ghost use Rattle.gtfs_rows.specs.Key.{key_cmp};
ghost use Rattle.gtfs_board.specs.LentKeys.{plain_key};

mod reading;
mod writing;

use gtfs_field::Day;
pub use reading::read_key;
use std::cmp::Ordering;
pub use writing::push_key;
pub(crate) use writing::{KEY_ROOM, write_key};

/// The key of a departure, by which boards are ordered: no two departures of a feed have the same.
///
/// Keys compare by instant, then by the trip's id byte by byte, then by run, sequence and service
/// day. A board can be opened after any key, whether or not a departure has it.
#[derive(Clone, Copy, Debug, PartialEq, Eq)]
pub struct Key<'a> {
    /// When the vehicle departs, in seconds since 1970-01-01T00:00:00Z.
    pub instant: i64,
    /// `trip_id` of trips.txt.
    pub trip: &'a str,
    /// The second of the service day at which the trip's run starts.
    pub run: u32,
    /// `stop_sequence` of the row of stop_times.txt.
    pub seq: u32,
    /// The service day, which is not always the date on the clock.
    pub day: Day,
}

impl Ord for Key<'_> {
    ghost cmp = { on plain_key key_cmp };

    ghost total = { Prim.search (comparing, rules) depth 12 };

    ghost matches_partial_cmp = { Prim.search (comparing, rules) depth 12 };

    ghost matches_eq = { Prim.search (comparing, rules) depth 12 };

    fn cmp(&self, other: &Self) -> Ordering {
        self.instant
            .cmp(&other.instant)
            .then(self.trip.cmp(other.trip))
            .then(self.run.cmp(&other.run))
            .then(self.seq.cmp(&other.seq))
            .then(self.day.cmp(&other.day))
    }
}

impl PartialOrd for Key<'_> {
    ghost partial_cmp = { as_partial_cmp (on plain_key key_cmp) };

    ghost laws = { partial_order_from_own_ties
        (Prim.search (comparing, rules) depth 12)
        (Prim.search (comparing, rules) depth 12) };

    fn partial_cmp(&self, other: &Self) -> Option<Ordering> {
        Some(self.cmp(other))
    }
}
