ghost use Rattle.std.specs.Prelude.{◌≡◌, ◌++◌, map};
ghost use Rattle.std.specs.List.{flat_map};
ghost use Rattle.gtfs_runs.specs.StopLanes.{list_value, period_value};
ghost use Rattle.gtfs_runs.specs.steps.LatestOfLists.{latest_of};

use crate::list_lane::ListLane;
use crate::step_lane::StepLane;

// The latest time of all events, 0 where there is none.
pub(crate) fn latest(lists: &[ListLane], periods: &[StepLane]) -> u32
    ensures { result ≡ latest_of (flat_map (λ lane. lane.events)
        (map list_value lists.now ++ map period_value periods.now)) }
{
    latest_of_lists(lists).max(latest_of_periods(periods))
}

fn latest_of_lists(lists: &[ListLane]) -> u32
    ensures { result ≡ latest_of (flat_map (λ lane. lane.events) (map list_value lists.now)) }
{
    let mut latest = 0;
    for lane in lists {
        latest = lane.latest().max(latest);
    }
    latest
}

fn latest_of_periods(periods: &[StepLane]) -> u32
    ensures { result ≡ latest_of (flat_map (λ lane. lane.events) (map period_value periods.now)) }
{
    let mut latest = 0;
    for lane in periods {
        latest = lane.latest().max(latest);
    }
    latest
}
