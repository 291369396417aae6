ghost use Rattle.std.specs.Prelude.{◌≡◌, ◌<◌, ◌^◌, ◌⊎◌, ◌<ℤ◌, ◌≤ℤ◌, ◌-ℤ◌, pos, ℕ};
ghost use Rattle.gtfs_runs.specs.EventOrder.{is_above_moment};
ghost use Rattle.gtfs_runs.specs.declared.event.Event.{Event};
ghost use Rattle.gtfs_board.specs.LaneDays.{departing};
ghost use Rattle.gtfs_board.specs.upcoming.Candidates.{candidate_lt};

use crate::upcoming::Candidate;
use gtfs_rows::TripNo;
use gtfs_runs::Moment;

// The position above which a lane has the departures of a day that lie above a floor, where the
// floor lies on an earlier day or belongs to a later lane. On a later day a departure with the
// floor's time, trip, run and sequence lies above it.
pub(super) fn moment_from(floor: &Candidate, origin: i64, day: i32) -> Moment
    ensures { (lane : ℕ) (e : Event) → e.at < 2 ^ 32 → (floor.now.day <ℤ day)
        ⊎ (lane < floor.now.lane)
        → is_above_moment result e ≡ candidate_lt floor.now (departing origin day lane e) }
{
    Moment {
        at: floor.instant.saturating_sub(origin),
        trip: TripNo(floor.trip),
        run: floor.run,
        seq: sequence_before(floor, day),
    }
}

// The sequence above which a departure of a day lies above the floor,
// where all that comes before is the same.
fn sequence_before(floor: &Candidate, day: i32) -> i64
    ensures later { floor.now.day <ℤ day → result ≡ pos floor.now.sequence -ℤ pos 1 }
    ensures since { day ≤ℤ floor.now.day → result ≡ pos floor.now.sequence }
{
    let sequence = i64::from(floor.sequence);
    if floor.day < day {
        sequence - 1
    } else {
        sequence
    }
}
