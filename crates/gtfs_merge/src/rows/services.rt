ghost use Rattle.std.specs.Prelude.{◌≡◌, IfOk, map};
ghost use Rattle.gtfs_rows.specs.RowsInMemory.{service_of};
ghost use Rattle.gtfs_merge.specs.KindEntries.{AreKindRows};
ghost use Rattle.gtfs_merge.specs.MergedSides.{merged_parts};
ghost use Rattle.gtfs_merge.specs.declared.kind.Kind.TheVariants as kind;

use crate::numbering::one_kind::KindRows;
use crate::sides::Sides;
use gtfs_days::Service;
use gtfs_field::{List, OutOfMemory, Text};
use gtfs_rows::{ServiceNo, ServiceRow};
use std::alloc::Global;

// The services of the merged feed.
pub(crate) fn merged_services(
    alloc: Global,
    sides: &Sides,
    services: &KindRows,
) -> Result<List<ServiceRow>, OutOfMemory>
    requires { AreKindRows kind.Service sides.now services.now }
    ensures { IfOk result (λ list. map service_of list ≡ (merged_parts sides.now).services) }
{
    let rows = services.rows();
    let mut list = Vec::with_capacity(alloc, rows.len())?;
    for row in rows {
        let source = sides.of(row.side).service_by_number(ServiceNo(row.number));
        list.push(with_id(alloc, source, row.id)?)?;
    }
    Ok(List::new(list))
}

// A service under this id.
fn with_id(alloc: Global, service: &Service, id: &str) -> Result<ServiceRow, OutOfMemory>
    ensures { IfOk result (λ other. other
        ≡ record { service_id = id.now; service = service.now }) }
{
    Ok(ServiceRow {
        service_id: Text::copy_of(alloc, id)?,
        service: Service::new(alloc, service.week().copied(), service.exceptions())?,
    })
}
