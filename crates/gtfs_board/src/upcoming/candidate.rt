ghost use Rattle.std.proofs.Common.{rules};
ghost use Rattle.std.specs.Prelude.{◌≡◌};
ghost use Rattle.std.specs.Cmp.{partial_order_from_own_ties};
ghost use Rattle.std.specs.Cmp.Rules.{comparing};
ghost use Rattle.std.specs.Ordering.{flip_args, as_partial_cmp};
ghost use Rattle.gtfs_board.specs.CandidateKeys.{ComparesAsKeys};
ghost use Rattle.gtfs_board.specs.upcoming.Candidates.{candidate_cmp, candidate_lt, departure_cmp, lane_cmp};

use std::cmp::Ordering;
use std::mem::size_of;

// A departure that may be the next one: numbers alone, so that many can wait.
//
// A heap gives its greatest first, so the candidate that comes first is the greatest.
#[derive(Clone, Copy, PartialEq, Eq)]
pub struct Candidate {
    // When it departs, in seconds since 1970-01-01T00:00:00Z.
    pub instant: i64,
    // The number of its trip.
    pub trip: usize,
    // The lane that gives it.
    pub lane: usize,
    // The position of its stop time in the trip, from 0.
    pub row: usize,
    // The second of the service day at which its run starts.
    pub run: u32,
    // `stop_sequence` of its stop time.
    pub sequence: u32,
    // The number of its service day.
    pub day: i32,
    // How many seconds after the origin of its service day it departs.
    pub at: u32,
}

// Many wait at once, so one is kept small.
const _: () = prove!(size_of::<Candidate>() == 48);

impl Candidate {
    // Whether it comes first of the two.
    pub fn comes_before(&self, other: &Candidate) -> bool
        ensures { result ≡ candidate_lt self.now other.now }
    {
        // The greater one comes first.
        other.cmp(self).is_lt()
    }

    // The order of the departures: by instant, trip, run, sequence and day.
    // It is the order of their keys.
    fn cmp_departure(&self, other: &Candidate) -> Ordering
        ensures value { result ≡ departure_cmp self.now other.now }
        ensures as_keys { ComparesAsKeys self.now other.now result }
    {
        self.instant
            .cmp(&other.instant)
            .then(self.trip.cmp(&other.trip))
            .then(self.run.cmp(&other.run))
            .then(self.sequence.cmp(&other.sequence))
            .then(self.day.cmp(&other.day))
    }

    // The order of what gives them: by lane, row and time.
    fn cmp_lane(&self, other: &Candidate) -> Ordering
        ensures { result ≡ lane_cmp self.now other.now }
    {
        self.lane
            .cmp(&other.lane)
            .then(self.row.cmp(&other.row))
            .then(self.at.cmp(&other.at))
    }
}

impl Ord for Candidate {
    ghost cmp = { flip_args candidate_cmp };

    ghost total = { Prim.search (comparing, rules) depth 16 };

    ghost matches_partial_cmp = { Prim.search (comparing, rules) depth 16 };

    ghost matches_eq = { Prim.search (comparing, rules) depth 16 };

    // Mostly the instants decide, so that the others are compared where these are one alone.
    fn cmp(&self, other: &Candidate) -> Ordering {
        match other.instant.cmp(&self.instant) {
            Ordering::Equal => other.cmp_departure(self).then(other.cmp_lane(self)),
            decided => decided,
        }
    }
}

impl PartialOrd for Candidate {
    ghost partial_cmp = { as_partial_cmp (flip_args candidate_cmp) };

    ghost laws = { partial_order_from_own_ties
        (Prim.search (comparing, rules) depth 16)
        (Prim.search (comparing, rules) depth 16) };

    fn partial_cmp(&self, other: &Candidate) -> Option<Ordering> {
        Some(self.cmp(other))
    }
}
