ghost use Rattle.std.specs.Prelude.{◌≡◌, ◌-◌};
ghost use Rattle.std.specs.List.Sorted.{IsSorted};
ghost use Rattle.gtfs_nearby.specs.AreaTree.{IsRun, listed_cmp, shared};

use crate::listed::Listed;
use crate::placed_stop::{PlacedStop, group_order};

// Listed stops that stand one after the other: their indices from the first to before the last.
#[derive(Clone, Copy)]
pub(crate) struct Run {
    pub from: usize,
    pub until: usize,
}

impl Run {
    // Those that have the name, type and parent of this place.
    pub fn of(listed: &[Listed<'_>], place: &PlacedStop<'_>) -> Run
        requires { IsSorted listed_cmp listed.now }
        ensures { IsRun listed.now place.now result }
    {
        Run {
            from: listed.partition_point(|one| group_order(&one.place, place).is_lt()),
            until: listed.partition_point(|one| group_order(&one.place, place).is_le()),
        }
    }

    pub fn len(self) -> usize
        ensures { result ≡ self.until - self.from }
    {
        self.until.saturating_sub(self.from)
    }

    // What is in both.
    pub fn shared(self, other: Run) -> Run
        ensures { result ≡ shared self other }
    {
        Run {
            from: self.from.max(other.from),
            until: self.until.min(other.until),
        }
    }
}
