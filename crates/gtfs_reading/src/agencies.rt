//! The rows of agency.txt (GTFS Schedule Reference, `agency.txt`).

ghost use Rattle.std.specs.Prelude.{◌≡◌, [], IfOk, OnOk, codes, map};
ghost use Rattle.gtfs_schema.specs.Problems.{Passes};
ghost use Rattle.gtfs_schema.specs.steps.Ids.{first_rows, rows_by_number};
ghost use Rattle.gtfs_reading.specs.ColumnIndices.{column_indices};
ghost use Rattle.gtfs_rows.specs.ContentRead.{agency_in, content_of};
ghost use Rattle.gtfs_rows.specs.RowsInMemory.{agency_of};
ghost use Rattle.gtfs_table.specs.declared.file.File.TheVariants as file;

use crate::columns::column_indices;
use crate::texts::{empty, read_id, read_optional_text, read_text};
use gtfs_field::{List, OutOfMemory};
use gtfs_rows::Agency;
use gtfs_schema::{Ids, agency_columns};
use gtfs_table::{File, Tables};
use std::alloc::Global;

// The agencies by their ids.
pub(crate) fn agencies(
    alloc: Global,
    tables: &Tables,
    ids: &Ids<'_>,
) -> Result<List<Agency>, OutOfMemory>
    requires passes { Passes tables.now }
    requires ids { ids.now ≡ first_rows tables.now file.Agency (codes "agency_id") }
    ensures { IfOk result (λ rows. map agency_of rows ≡ (content_of tables.now).agencies) }
{
    let mut agencies = Vec::with_capacity(alloc, ids.len())?;
    push_agencies(alloc, tables, ids, &mut agencies).and(Ok(List::new(agencies)))
}

// Fills a list, which has one owner whichever row finds no memory.
fn push_agencies(
    alloc: Global,
    tables: &Tables,
    ids: &Ids<'_>,
    agencies: &mut Vec<Agency>,
) -> Result<(), OutOfMemory>
    requires { agencies.old.items ≡ [] }
    ensures { OnOk result (map agency_of agencies.new.items
        ≡ map (agency_in tables.now) (rows_by_number ids.now)) }
{
    let columns = column_indices(tables, File::Agency, &agency_columns());
    for number in 0..ids.len() {
        agencies.push(agency(alloc, tables, &columns, ids.row(number))?)?;
    }
    Ok(())
}

// The agency of a row.
fn agency(
    alloc: Global,
    tables: &Tables,
    columns: &[Option<usize>; 8],
    row: usize,
) -> Result<Agency, OutOfMemory>
    requires { columns.now ≡ column_indices tables.now file.Agency }
    ensures { IfOk result (λ a. agency_of a ≡ agency_in tables.now row) }
{
    let mut agency = Agency {
        agency_id: empty(alloc),
        agency_name: empty(alloc),
        agency_url: empty(alloc),
        agency_timezone: empty(alloc),
        agency_lang: None,
        agency_phone: None,
        agency_fare_url: None,
        agency_email: None,
    };
    read_texts(alloc, tables, columns, row, &mut agency).and(Ok(agency))
}

// Reads the texts of a row into an agency, which has one owner whichever text finds no memory.
fn read_texts(
    alloc: Global,
    tables: &Tables,
    columns: &[Option<usize>; 8],
    row: usize,
    agency: &mut Agency,
) -> Result<(), OutOfMemory>
    requires { columns.now ≡ column_indices tables.now file.Agency }
    ensures { OnOk result (agency_of agency.new ≡ agency_in tables.now row) }
{
    let record = tables.record(File::Agency, row);
    read_id(alloc, &record, columns[0], &mut agency.agency_id)?;
    read_text(alloc, &record, columns[1], &mut agency.agency_name)?;
    read_text(alloc, &record, columns[2], &mut agency.agency_url)?;
    read_id(alloc, &record, columns[3], &mut agency.agency_timezone)?;
    read_optional_text(alloc, &record, columns[4], &mut agency.agency_lang)?;
    read_optional_text(alloc, &record, columns[5], &mut agency.agency_phone)?;
    read_optional_text(alloc, &record, columns[6], &mut agency.agency_fare_url)?;
    read_optional_text(alloc, &record, columns[7], &mut agency.agency_email)
}
