ghost use Rattle.std.specs.Prelude.{◌≡◌, ◌<◌, length, OnOk};
ghost use Rattle.gtfs_schema.specs.Columns.{columns_of};
ghost use Rattle.gtfs_rows.specs.Cells.{record_text};
ghost use Rattle.gtfs_rows.specs.RowCells.{route_cells};
ghost use Rattle.gtfs_rows.specs.RowsInMemory.{IsSoundParts, content_of_parts, route_of};
ghost use Rattle.gtfs_table.specs.declared.file.File.TheVariants as file;
ghost use Rattle.gtfs_writing.specs.TakenRecords.{rows_in, with_row, with_rows};

use crate::fields::Fields;
use crate::names::agency_id;
use crate::sink::Sink;
use gtfs_field::OutOfMemory;
use gtfs_rows::{Parts, Route};

// The rows of routes.txt.
pub(crate) fn write_routes<S: Sink>(parts: &Parts, rows: &mut Fields<S>) -> Result<(), OutOfMemory>
    requires { IsSoundParts parts.now }
    ensures { OnOk result
        (rows.new ≡ with_rows S.takes rows.old (rows_in (content_of_parts parts.now) file.Routes)) }
{
    let routes = parts.routes.as_slice();
    for route in routes {
        write_route(parts, route, rows)?;
    }
    Ok(())
}

fn write_route<S: Sink>(
    parts: &Parts,
    route: &Route,
    rows: &mut Fields<S>,
) -> Result<(), OutOfMemory>
    requires { route.now.agency_id.0 < length parts.now.agencies }
    ensures { OnOk result (rows.new ≡ with_row S.takes rows.old
        (record_text (columns_of file.Routes) (route_cells (route_of parts.now route.now)))) }
{
    rows.first(route.route_id.as_str())?;
    rows.text(agency_id(parts, route.agency_id))?;
    rows.optional_text(&route.route_short_name)?;
    rows.optional_text(&route.route_long_name)?;
    rows.optional_text(&route.route_desc)?;
    rows.number(route.route_type.number())?;
    rows.optional_text(&route.route_url)?;
    rows.colour(route.route_color)?;
    rows.colour(route.route_text_color)?;
    rows.optional_count(route.route_sort_order)?;
    rows.last()
}
