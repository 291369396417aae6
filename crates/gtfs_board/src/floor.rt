//! Above which candidates a board begins.
ghost use Rattle.std.specs.Prelude.{◌≡◌, ◌≤◌, ◌⊎◌, ◌≤ℤ◌, ◌<ℤ◌, option_map, Some};
ghost use Rattle.std.specs.Int.{int_max};
ghost use Rattle.std.specs.Ordering.{is_lt, ordering_then, int_cmp, nat_cmp};
ghost use Rattle.std.specs.declared.cmp.Ordering.TheVariants.{Less};
ghost use Rattle.gtfs_days.specs.Service.{first_service_day};
ghost use Rattle.gtfs_board.specs.Board.{start_of};
ghost use Rattle.gtfs_board.specs.Floors.{IsNumbered, is_from};
ghost use Rattle.gtfs_rows.specs.Key.{key_cmp};
ghost use Rattle.gtfs_board.specs.LentKeys.{plain_key};
ghost use Rattle.gtfs_board.specs.ShownCandidates.{candidate_key};
ghost use Rattle.gtfs_board.specs.declared.upcoming.candidate.Candidate.{Candidate as CandidateValue};
ghost use Rattle.gtfs_board.specs.upcoming.Candidates.{candidate_lt};

use crate::key::Key;
use crate::upcoming::Candidate;
use gtfs_runs::{Feed, trips_below};

// The floor of a board from an instant on, above a key if there is one. It belongs to none of so
// many lanes, or to a day before all service days.
pub(crate) fn floor_of(feed: &Feed, lanes: usize, from: i64, after: Option<&Key<'_>>) -> Candidate
    ensures value { (c : CandidateValue) → IsNumbered feed.now lanes c → candidate_lt result c
        ≡ is_from feed.now from (option_map (λ k. plain_key k.now) after.entry) c }
    ensures start { result.instant ≡ start_of from (option_map (λ k. plain_key k.now) after.entry) }
    ensures aside { (result.day <ℤ first_service_day) ⊎ (lanes ≤ result.lane) }
{
    match after {
        Some(key) => floor_from(feed, lanes, from, key),
        None => floor_before(from, 0),
    }
}

// The floor of a board from an instant on and above a key.
fn floor_from(feed: &Feed, lanes: usize, from: i64, key: &Key<'_>) -> Candidate
    ensures value { (c : CandidateValue) → IsNumbered feed.now lanes c
        → candidate_lt result c ≡ is_from feed.now from (Some (plain_key key.now)) c }
    ensures start { result.instant ≡ int_max from key.now.instant }
    ensures aside { (result.day <ℤ first_service_day) ⊎ (lanes ≤ result.lane) }
{
    if from <= key.instant {
        floor_after(feed, lanes, key)
    } else {
        floor_before(from, 0)
    }
}

// The floor above which the departures are that have a greater key.
fn floor_after(feed: &Feed, lanes: usize, key: &Key<'_>) -> Candidate
    ensures value { (c : CandidateValue) → IsNumbered feed.now lanes c → candidate_lt result c
        ≡ is_lt (key_cmp (plain_key key.now) (candidate_key feed.now c)) }
    ensures instant { result.instant ≡ key.now.instant }
    ensures aside { (result.day <ℤ first_service_day) ⊎ (lanes ≤ result.lane) }
{
    feed.soundness();
    match feed.trip(key.trip) {
        Some(trip) => Candidate {
            instant: key.instant,
            trip: trip.0,
            lane: lanes,
            row: 0,
            run: key.run,
            sequence: key.seq,
            day: key.day.number(),
            at: 0,
        },
        None => floor_before(key.instant, trips_below(feed, key.trip)),
    }
}

// The floor above which the departures of an instant are from a trip on, and all later ones.
fn floor_before(instant: i64, trip: usize) -> Candidate
    ensures value { (c : CandidateValue) → first_service_day ≤ℤ c.day → candidate_lt result c
        ≡ is_lt (ordering_then (int_cmp instant c.instant)
        (ordering_then (nat_cmp trip c.trip) Less)) }
    ensures instant { result.instant ≡ instant }
    ensures day { result.day <ℤ first_service_day }
{
    Candidate {
        instant,
        trip,
        lane: 0,
        row: 0,
        run: 0,
        sequence: 0,
        day: i32::MIN,
        at: 0,
    }
}
