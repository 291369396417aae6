ghost use Rattle.std.specs.Prelude.{◌≡◌, ◌<◌, [], IfOk, IfSome, None, Some, length, map, option_and_then, option_map, slice_get, slice_index_or};
ghost use Rattle.gtfs_rows.specs.RowsInMemory.{stop_ids};
ghost use Rattle.gtfs_rows.specs.declared.stop.Stop.{Stop as StopRowOf};
ghost use Rattle.gtfs_merge.specs.JoinedNumbers.{number_if};
ghost use Rattle.gtfs_nearby.specs.NearRows.{is_same_parent};
ghost use Rattle.gtfs_merge.specs.Renaming.{Renaming, joined_stop_under};
ghost use Rattle.gtfs_merge.specs.MergedSides.{content_a, content_b, is_joined_id};
ghost use Rattle.gtfs_merge.specs.Twins.{became, joined_flags, parent_became, twin_numbers};
ghost use Rattle.gtfs_merge.specs.declared.kind.Kind.TheVariants as kind;

use crate::comparing::stops::is_alike_stop;
use crate::sides::Sides;
use gtfs_field::OutOfMemory;
use gtfs_rows::StopNo;
use std::alloc::Global;

// The stop of A that a stop of B is joined with,
// where the parent of that stop of B became this one of A.
pub(crate) fn joined_stop(sides: &Sides, stop: StopNo, parent: Option<StopNo>) -> Option<StopNo>
    requires { stop.0 < length sides.now.b.now.stops }
    ensures { (rename : Renaming) (row : StopRowOf)
        → slice_get sides.now.b.now.stops stop.0 ≡ Some row
        → option_map (λ n. n.0) parent ≡ parent_became sides.now rename row
        → option_map (λ n. n.0) result ≡ number_if
        (joined_stop_under rename (content_a sides.now) (content_b sides.now) row.stop_id)
        (stop_ids sides.now.a.now) row.stop_id }
{
    sides.soundness();
    let row = sides.b.stop_by_number(stop);
    let other = sides.a.stop(row.stop_id.as_str())?;
    let same = sides.a.stop_by_number(other);
    if is_alike_stop(same, row) && is_same_parent(same.parent_station, row.parent_station, parent) {
        Some(other)
    } else {
        None
    }
}

// Whether neither of two stops has a parent,
// or what the parent of the second became is that of the first.
fn is_same_parent(first: Option<StopNo>, second: Option<StopNo>, became: Option<StopNo>) -> bool
    ensures { result ≡ is_same_parent (option_map (λ n. n.0) first)
        (option_map (λ n. n.0) second) (option_map (λ n. n.0) became) }
{
    match (first, second) {
        (Some(first), Some(_)) => became == Some(first),
        (None, None) => true,
        _ => false,
    }
}

// Whether each stop of B is joined, where these are the twins of all.
pub(crate) fn joined_flags(
    alloc: Global,
    sides: &Sides,
    twins: &[Option<StopNo>],
) -> Result<Vec<bool>, OutOfMemory>
    requires { map (option_map (λ n. n.0)) twins.now ≡ twin_numbers kind.Stop sides.now }
    ensures { IfOk result (λ flags. flags.items ≡ joined_flags sides.now) }
{
    let mut flags = Vec::with_capacity(alloc, sides.b.stop_count())?;
    for number in 0..sides.b.stop_count() {
        flags.push(is_joined_stop(sides, twins, StopNo(number)))?;
    }
    Ok(flags)
}

// Whether a stop of B is joined.
fn is_joined_stop(sides: &Sides, twins: &[Option<StopNo>], stop: StopNo) -> bool
    requires twins { map (option_map (λ n. n.0)) twins.now ≡ twin_numbers kind.Stop sides.now }
    requires stop { stop.0 < length sides.now.b.now.stops }
    ensures { result ≡ is_joined_id kind.Stop sides.now
        (slice_index_or (stop_ids sides.now.b.now) stop.0 []) }
{
    sides.soundness();
    let row = sides.b.stop_by_number(stop);
    let parent = twin_of(row.parent_station, twins);
    joined_stop(sides, stop, parent).is_some()
}

// The twin of a stop, if there is one.
fn twin_of(stop: Option<StopNo>, twins: &[Option<StopNo>]) -> Option<StopNo>
    requires { IfSome stop (λ n. n.0 < length twins.now) }
    ensures { option_map (λ n. n.0) result ≡ option_and_then
        (λ n. slice_index_or (map (option_map (λ n. n.0)) twins.now) n.0 None) stop }
{
    match stop {
        Some(stop) => twins[stop.0],
        None => None,
    }
}
