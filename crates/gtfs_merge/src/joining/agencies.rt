ghost use Rattle.std.specs.Prelude.{◌≡◌, ◌<◌, [], IfOk, length, map, option_map, slice_index_or};
ghost use Rattle.gtfs_rows.specs.RowsInMemory.{agency_ids};
ghost use Rattle.gtfs_merge.specs.JoinedNumbers.{joined_number, joined_numbers};
ghost use Rattle.gtfs_merge.specs.declared.kind.Kind.TheVariants as kind;

use crate::comparing::agencies::is_same_agency;
use crate::sides::Sides;
use gtfs_field::OutOfMemory;
use gtfs_rows::AgencyNo;
use std::alloc::Global;

// For each agency of B the agency of A that it is joined with.
pub(crate) fn joined_agencies(
    alloc: Global,
    sides: &Sides,
) -> Result<Vec<Option<AgencyNo>>, OutOfMemory>
    ensures { IfOk result (λ joined. map (option_map (λ n. n.0)) joined.items
        ≡ joined_numbers kind.Agency sides.now) }
{
    let mut joined = Vec::with_capacity(alloc, sides.b.agency_count())?;
    for number in 0..sides.b.agency_count() {
        joined.push(joined_agency(sides, AgencyNo(number)))?;
    }
    Ok(joined)
}

// The agency of A that an agency of B is joined with.
fn joined_agency(sides: &Sides, agency: AgencyNo) -> Option<AgencyNo>
    requires { agency.0 < length sides.now.b.now.agencies }
    ensures { option_map (λ n. n.0) result
        ≡ joined_number kind.Agency sides.now
        (slice_index_or (agency_ids sides.now.b.now) agency.0 []) }
{
    sides.soundness();
    let row = sides.b.agency_by_number(agency);
    let other = sides.a.agency(row.agency_id.as_str())?;
    if is_same_agency(sides.a.agency_by_number(other), row) {
        Some(other)
    } else {
        None
    }
}
