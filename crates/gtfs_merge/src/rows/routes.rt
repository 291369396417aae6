ghost use Rattle.std.specs.Prelude.{◌≡◌, ◌<◌, IfOk, length, map, slice_index_or, true};
ghost use Rattle.std.specs.List.{list_all};
ghost use Rattle.gtfs_rows.specs.NamedRows.{names_agency, route_named};
ghost use Rattle.gtfs_merge.specs.KindEntries.{AreKindRows};
ghost use Rattle.gtfs_merge.specs.MergedSides.{merged_parts, merged_ids};
ghost use Rattle.gtfs_merge.specs.declared.kind.Kind.TheVariants as kind;

use crate::numbering::one_kind::KindRows;
use crate::sides::Sides;
use gtfs_field::{List, OutOfMemory};
use gtfs_rows::{AgencyNo, Route, RouteNo};
use std::alloc::Global;

// The routes of the merged feed.
pub(crate) fn merged_routes(
    alloc: Global,
    sides: &Sides,
    routes: &KindRows,
    agencies: &KindRows,
) -> Result<List<Route>, OutOfMemory>
    requires routes { AreKindRows kind.Route sides.now routes.now }
    requires agencies { AreKindRows kind.Agency sides.now agencies.now }
    ensures rows { IfOk result (λ list. map (route_named (merged_ids kind.Agency sides.now)) list
        ≡ (merged_parts sides.now).routes) }
    ensures agencies { IfOk result (λ list.
        list_all (names_agency (merged_ids kind.Agency sides.now)) list ≡ true) }
{
    sides.soundness();
    let rows = routes.rows();
    let mut list = Vec::with_capacity(alloc, rows.len())?;
    for row in rows {
        let source = sides.of(row.side).route_by_number(RouteNo(row.number));
        let agency = renumbered(source.agency_id, agencies.numbers(row.side));
        list.push(source.under(alloc, row.id, agency)?)?;
    }
    Ok(List::new(list))
}

// What the number of an agency became.
fn renumbered(agency: AgencyNo, numbers: &[usize]) -> AgencyNo
    requires { agency.0 < length numbers.now }
    ensures { result.0 ≡ slice_index_or numbers.now agency.0 0 }
{
    AgencyNo(numbers[agency.0])
}
