ghost use Rattle.std.specs.Prelude.{◌≡◌, ◌<◌, [], IfOk, length, map, option_map, slice_index_or};
ghost use Rattle.gtfs_rows.specs.RowsInMemory.{service_ids};
ghost use Rattle.gtfs_merge.specs.JoinedNumbers.{joined_number, joined_numbers};
ghost use Rattle.gtfs_merge.specs.declared.kind.Kind.TheVariants as kind;

use crate::comparing::services::is_same_service;
use crate::sides::Sides;
use gtfs_field::OutOfMemory;
use gtfs_rows::ServiceNo;
use std::alloc::Global;

// For each service of B the service of A that it is joined with.
pub(crate) fn joined_services(
    alloc: Global,
    sides: &Sides,
) -> Result<Vec<Option<ServiceNo>>, OutOfMemory>
    ensures { IfOk result (λ joined. map (option_map (λ n. n.0)) joined.items
        ≡ joined_numbers kind.Service sides.now) }
{
    let mut joined = Vec::with_capacity(alloc, sides.b.service_count())?;
    for number in 0..sides.b.service_count() {
        joined.push(joined_service(sides, ServiceNo(number)))?;
    }
    Ok(joined)
}

// The service of A that a service of B is joined with.
fn joined_service(sides: &Sides, service: ServiceNo) -> Option<ServiceNo>
    requires { service.0 < length sides.now.b.now.services }
    ensures { option_map (λ n. n.0) result
        ≡ joined_number kind.Service sides.now
        (slice_index_or (service_ids sides.now.b.now) service.0 []) }
{
    sides.soundness();
    let other = sides.a.service(sides.b.service_id(service))?;
    if is_same_service(
        sides.a.service_by_number(other),
        sides.b.service_by_number(service),
    ) {
        Some(other)
    } else {
        None
    }
}
