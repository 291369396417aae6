ghost use Rattle.std.specs.Prelude.{◌≡◌, ◌<◌, IfOk, Some, bytes_eq, length, option_and_then, option_map, position, slice_get};
ghost use Rattle.gtfs_rows.specs.RowsInMemory.{stop_ids};
ghost use Rattle.gtfs_rows.specs.declared.stop.Stop.{Stop as StopRowOf};
ghost use Rattle.gtfs_merge.specs.Renaming.{Renaming, near_stop_under};
ghost use Rattle.gtfs_merge.specs.MergedSides.{content_a, content_b, nearness_of};
ghost use Rattle.gtfs_merge.specs.Twins.{near_stops, parent_became};

use crate::sides::Sides;
use gtfs_field::OutOfMemory;
use gtfs_nearby::Nearby;
use gtfs_rows::StopNo;
use std::alloc::Global;

// The stops of A among which near ones are found, if any are near.
pub(crate) fn nearby_stops<'a>(
    alloc: Global,
    sides: &Sides<'a>,
) -> Result<Option<Nearby<'a>>, OutOfMemory>
    ensures { IfOk result (λ nearby. nearby ≡ near_stops sides.now) }
{
    match sides.near {
        Some(near) => Ok(Some(Nearby::new(alloc, sides.a.parts().stops.as_slice(), near)?)),
        None => Ok(None),
    }
}

// The stop of A that a stop of B is near, where the parent of that stop became this one of A.
pub(crate) fn near_stop(
    sides: &Sides,
    nearby: &Option<Nearby>,
    stop: StopNo,
    parent: Option<StopNo>,
) -> Option<StopNo>
    requires nearby { nearby.now ≡ near_stops sides.now }
    requires stop { stop.0 < length sides.now.b.now.stops }
    ensures { (rename : Renaming) (row : StopRowOf)
        → slice_get sides.now.b.now.stops stop.0 ≡ Some row
        → option_map (λ n. n.0) parent ≡ parent_became sides.now rename row
        → option_map (λ n. n.0) result
        ≡ option_and_then (λ z. position (bytes_eq z) (stop_ids sides.now.a.now))
        (near_stop_under (nearness_of sides.now) rename (content_a sides.now)
        (content_b sides.now) row.stop_id) }
{
    sides.soundness();
    let row = sides.b.stop_by_number(stop);
    match nearby {
        Some(nearby) => nearby.find(row, parent),
        None => None,
    }
}
