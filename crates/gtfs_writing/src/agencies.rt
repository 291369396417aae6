ghost use Rattle.std.specs.Prelude.{◌≡◌, OnOk};
ghost use Rattle.gtfs_schema.specs.Columns.{columns_of};
ghost use Rattle.gtfs_rows.specs.Cells.{record_text};
ghost use Rattle.gtfs_rows.specs.RowCells.{agency_cells};
ghost use Rattle.gtfs_rows.specs.RowsInMemory.{IsSoundParts, agency_of, content_of_parts};
ghost use Rattle.gtfs_table.specs.declared.file.File.TheVariants as file;
ghost use Rattle.gtfs_writing.specs.TakenRecords.{rows_in, with_row, with_rows};

use crate::fields::Fields;
use crate::sink::Sink;
use gtfs_field::OutOfMemory;
use gtfs_rows::{Agency, Parts};

// The rows of agency.txt.
pub(crate) fn write_agencies<S: Sink>(
    parts: &Parts,
    rows: &mut Fields<S>,
) -> Result<(), OutOfMemory>
    ensures { OnOk result
        (rows.new ≡ with_rows S.takes rows.old (rows_in (content_of_parts parts.now) file.Agency)) }
{
    let agencies = parts.agencies.as_slice();
    for agency in agencies {
        write_agency(agency, rows)?;
    }
    Ok(())
}

fn write_agency<S: Sink>(agency: &Agency, rows: &mut Fields<S>) -> Result<(), OutOfMemory>
    ensures { OnOk result (rows.new ≡ with_row S.takes rows.old
        (record_text (columns_of file.Agency) (agency_cells (agency_of agency.now)))) }
{
    rows.first(agency.agency_id.as_str())?;
    rows.text(agency.agency_name.as_str())?;
    rows.text(agency.agency_url.as_str())?;
    rows.text(agency.agency_timezone.as_str())?;
    rows.optional_text(&agency.agency_lang)?;
    rows.optional_text(&agency.agency_phone)?;
    rows.optional_text(&agency.agency_fare_url)?;
    rows.optional_text(&agency.agency_email)?;
    rows.last()
}
