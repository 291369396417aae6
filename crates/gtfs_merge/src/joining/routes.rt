ghost use Rattle.std.specs.Option.{option_eq};
ghost use Rattle.std.specs.Prelude.{◌≡◌, ◌<◌, [], IfOk, None, Some, length, map, nat_eq, option_map, slice_index_or};
ghost use Rattle.gtfs_rows.specs.RowsInMemory.{route_ids};
ghost use Rattle.gtfs_merge.specs.JoinedNumbers.{joined_number, joined_numbers};
ghost use Rattle.gtfs_merge.specs.declared.kind.Kind.TheVariants as kind;

use crate::comparing::routes::is_same_route;
use crate::sides::Sides;
use gtfs_field::OutOfMemory;
use gtfs_rows::{AgencyNo, RouteNo};
use std::alloc::Global;

// For each route of B the route of A that it is joined with.
pub(crate) fn joined_routes(
    alloc: Global,
    sides: &Sides,
    agencies: &[Option<AgencyNo>],
) -> Result<Vec<Option<RouteNo>>, OutOfMemory>
    requires { map (option_map (λ n. n.0)) agencies.now ≡ joined_numbers kind.Agency sides.now }
    ensures { IfOk result (λ joined. map (option_map (λ n. n.0)) joined.items
        ≡ joined_numbers kind.Route sides.now) }
{
    let mut joined = Vec::with_capacity(alloc, sides.b.route_count())?;
    for number in 0..sides.b.route_count() {
        joined.push(joined_route(sides, agencies, RouteNo(number)))?;
    }
    Ok(joined)
}

// The route of A that a route of B is joined with.
fn joined_route(sides: &Sides, agencies: &[Option<AgencyNo>], route: RouteNo) -> Option<RouteNo>
    requires agencies { map (option_map (λ n. n.0)) agencies.now
        ≡ joined_numbers kind.Agency sides.now }
    requires route { route.0 < length sides.now.b.now.routes }
    ensures { option_map (λ n. n.0) result
        ≡ joined_number kind.Route sides.now
        (slice_index_or (route_ids sides.now.b.now) route.0 []) }
{
    sides.soundness();
    let row = sides.b.route_by_number(route);
    let other = sides.a.route(row.route_id.as_str())?;
    let same = sides.a.route_by_number(other);
    let agency = is_joined_with(agencies, row.agency_id, same.agency_id);
    if is_same_route(same, row, agency) {
        Some(other)
    } else {
        None
    }
}

// Whether an agency of B is joined with this one of A.
fn is_joined_with(agencies: &[Option<AgencyNo>], agency: AgencyNo, other: AgencyNo) -> bool
    requires { agency.0 < length agencies.now }
    ensures { result ≡ option_eq nat_eq (Some other.0)
        (slice_index_or (map (option_map (λ n. n.0)) agencies.now) agency.0 None) }
{
    agencies[agency.0] == Some(other)
}
