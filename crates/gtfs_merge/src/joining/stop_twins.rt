ghost use Rattle.std.specs.Prelude.{◌≡◌, ◌<◌, [], IfOk, Some, length, map, option_map, slice_get, slice_index_or};
ghost use Rattle.gtfs_rows.specs.RowsInMemory.{stop_ids};
ghost use Rattle.gtfs_rows.specs.declared.stop.Stop.{Stop as StopRowOf};
ghost use Rattle.gtfs_merge.specs.Renaming.{Renaming, stop_under, stop_within};
ghost use Rattle.gtfs_merge.specs.MergedSides.{content_a, content_b, nearness_of};
ghost use Rattle.gtfs_merge.specs.Twins.{became, near_stops, parent_became, twin_numbers};
ghost use Rattle.gtfs_merge.specs.declared.kind.Kind.TheVariants as kind;

use crate::joining::near_stops::{near_stop, nearby_stops};
use crate::joining::stops::joined_stop;
use crate::sides::Sides;
use gtfs_field::OutOfMemory;
use gtfs_nearby::Nearby;
use gtfs_rows::StopNo;
use std::alloc::Global;

// How many generations of stops decide: a boarding area, its platform and its station.
const GENERATIONS: u8 = 3;

// For each stop of B its twin: the stop of A that it is joined with, or the one that it is near.
pub(crate) fn stop_twins(alloc: Global, sides: &Sides) -> Result<Vec<Option<StopNo>>, OutOfMemory>
    ensures { IfOk result (λ twins. map (option_map (λ n. n.0)) twins.items
        ≡ twin_numbers kind.Stop sides.now) }
{
    let nearby = nearby_stops(alloc, sides)?;
    all_twins(alloc, sides, &nearby)
}

// The twins, where these are the stops among which near ones are found.
fn all_twins(
    alloc: Global,
    sides: &Sides,
    nearby: &Option<Nearby>,
) -> Result<Vec<Option<StopNo>>, OutOfMemory>
    requires { nearby.now ≡ near_stops sides.now }
    ensures { IfOk result (λ twins. map (option_map (λ n. n.0)) twins.items
        ≡ twin_numbers kind.Stop sides.now) }
{
    let mut twins = Vec::with_capacity(alloc, sides.b.stop_count())?;
    for number in 0..sides.b.stop_count() {
        twins.push(stop_within(sides, nearby, StopNo(number), GENERATIONS))?;
    }
    Ok(twins)
}

// The stop of A that a stop of B becomes where this many generations of stops decide,
// the stop's own first.
fn stop_within(
    sides: &Sides,
    nearby: &Option<Nearby>,
    stop: StopNo,
    generations: u8,
) -> Option<StopNo>
    requires nearby { nearby.now ≡ near_stops sides.now }
    requires stop { stop.0 < length sides.now.b.now.stops }
    ensures { option_map (λ n. n.0) result ≡ became (stop_ids sides.now.a.now)
        (stop_within (nearness_of sides.now) generations (content_a sides.now)
        (content_b sides.now))
        (slice_index_or (stop_ids sides.now.b.now) stop.0 []) }
{
    sides.soundness();
    let row = sides.b.stop_by_number(stop);
    if generations == 0 {
        return sides.a.stop(row.stop_id.as_str());
    }
    let Some(parent) = row.parent_station else {
        return stop_twin(sides, nearby, stop, None);
    };
    let became = stop_within(sides, nearby, parent, generations - 1);
    stop_twin(sides, nearby, stop, became)
}

// The twin of a stop of B, where the parent of that stop became this stop of A.
fn stop_twin(
    sides: &Sides,
    nearby: &Option<Nearby>,
    stop: StopNo,
    parent: Option<StopNo>,
) -> Option<StopNo>
    requires nearby { nearby.now ≡ near_stops sides.now }
    requires stop { stop.0 < length sides.now.b.now.stops }
    ensures { (rename : Renaming) (row : StopRowOf)
        → slice_get sides.now.b.now.stops stop.0 ≡ Some row
        → option_map (λ n. n.0) parent ≡ parent_became sides.now rename row
        → option_map (λ n. n.0) result ≡ became (stop_ids sides.now.a.now)
        (stop_under (nearness_of sides.now) rename (content_a sides.now) (content_b sides.now))
        row.stop_id }
{
    sides.soundness();
    match joined_stop(sides, stop, parent) {
        Some(other) => Some(other),
        None => near_stop(sides, nearby, stop, parent),
    }
}
