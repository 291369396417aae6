ghost use Rattle.std.specs.Prelude.{◌≡◌, ◌<◌, IfOk, IfSome, length, map, option_map, slice_index_or, true};
ghost use Rattle.std.specs.List.{list_all};
ghost use Rattle.gtfs_rows.specs.NamedRows.{names_parent, stop_named};
ghost use Rattle.gtfs_merge.specs.KindEntries.{AreKindRows};
ghost use Rattle.gtfs_merge.specs.MergedSides.{merged_parts, merged_ids};
ghost use Rattle.gtfs_merge.specs.declared.kind.Kind.TheVariants as kind;

use crate::numbering::one_kind::KindRows;
use crate::sides::Sides;
use gtfs_field::{List, OutOfMemory};
use gtfs_rows::{Stop, StopNo};
use std::alloc::Global;

// The stops of the merged feed.
pub(crate) fn merged_stops(
    alloc: Global,
    sides: &Sides,
    stops: &KindRows,
) -> Result<List<Stop>, OutOfMemory>
    requires { AreKindRows kind.Stop sides.now stops.now }
    ensures rows { IfOk result (λ list. map (stop_named (merged_ids kind.Stop sides.now)) list
        ≡ (merged_parts sides.now).stops) }
    ensures parents { IfOk result (λ list.
        list_all (names_parent (merged_ids kind.Stop sides.now)) list ≡ true) }
{
    sides.soundness();
    let rows = stops.rows();
    let mut list = Vec::with_capacity(alloc, rows.len())?;
    for row in rows {
        let source = sides.of(row.side).stop_by_number(StopNo(row.number));
        let parent = renumbered(source.parent_station, stops.numbers(row.side));
        list.push(source.under(alloc, row.id, parent)?)?;
    }
    Ok(List::new(list))
}

// What the number of a stop became, if there is one.
fn renumbered(stop: Option<StopNo>, numbers: &[usize]) -> Option<StopNo>
    requires { IfSome stop (λ n. n.0 < length numbers.now) }
    ensures { option_map (λ n. n.0) result
        ≡ option_map (λ n. slice_index_or numbers.now n.0 0) stop }
{
    match stop {
        Some(stop) => Some(StopNo(numbers[stop.0])),
        None => None,
    }
}
