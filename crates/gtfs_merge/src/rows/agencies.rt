ghost use Rattle.std.specs.Prelude.{◌≡◌, IfOk, map};
ghost use Rattle.gtfs_rows.specs.RowsInMemory.{agency_of};
ghost use Rattle.gtfs_merge.specs.KindEntries.{AreKindRows};
ghost use Rattle.gtfs_merge.specs.MergedSides.{merged_parts};
ghost use Rattle.gtfs_merge.specs.declared.kind.Kind.TheVariants as kind;

use crate::numbering::one_kind::KindRows;
use crate::sides::Sides;
use gtfs_field::{List, OutOfMemory};
use gtfs_rows::{Agency, AgencyNo};
use std::alloc::Global;

// The agencies of the merged feed.
pub(crate) fn merged_agencies(
    alloc: Global,
    sides: &Sides,
    agencies: &KindRows,
) -> Result<List<Agency>, OutOfMemory>
    requires { AreKindRows kind.Agency sides.now agencies.now }
    ensures { IfOk result (λ list. map agency_of list ≡ (merged_parts sides.now).agencies) }
{
    let rows = agencies.rows();
    let mut list = Vec::with_capacity(alloc, rows.len())?;
    for row in rows {
        let source = sides.of(row.side).agency_by_number(AgencyNo(row.number));
        list.push(source.under(alloc, row.id)?)?;
    }
    Ok(List::new(list))
}
