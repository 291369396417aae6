ghost use Rattle.std.specs.Prelude.{◌≡◌, true, option_map, OnOk};
ghost use Rattle.gtfs_schema.specs.Columns.{columns_of, id};
ghost use Rattle.gtfs_schema.specs.FieldValues.{word};
ghost use Rattle.gtfs_rows.specs.Cells.{cell_text, record_text};
ghost use Rattle.gtfs_rows.specs.RowCells.{transfer_cells};
ghost use Rattle.gtfs_rows.specs.RowsInMemory.{IsSoundParts, content_of_parts, names_route, names_stop, names_trip, transfer_names_rows, transfer_of};
ghost use Rattle.gtfs_table.specs.declared.file.File.TheVariants as file;
ghost use Rattle.gtfs_writing.specs.TakenRecords.{rows_in, with_row, with_rows};

use crate::fields::Fields;
use crate::names::{route_id_if_any, stop_id_if_any, trip_id_if_any};
use crate::sink::Sink;
use gtfs_field::OutOfMemory;
use gtfs_rows::{Parts, Transfer};

// The rows of transfers.txt.
pub(crate) fn write_transfers<S: Sink>(
    parts: &Parts,
    rows: &mut Fields<S>,
) -> Result<(), OutOfMemory>
    requires { IsSoundParts parts.now }
    ensures { OnOk result
        (rows.new
        ≡ with_rows S.takes rows.old (rows_in (content_of_parts parts.now) file.Transfers)) }
{
    let transfers = parts.transfers.as_slice();
    for transfer in transfers {
        write_transfer(parts, transfer, rows)?;
    }
    Ok(())
}

fn write_transfer<S: Sink>(
    parts: &Parts,
    transfer: &Transfer,
    rows: &mut Fields<S>,
) -> Result<(), OutOfMemory>
    requires { transfer_names_rows parts.now transfer.now ≡ true }
    ensures { OnOk result (rows.new ≡ with_row S.takes rows.old
        (record_text (columns_of file.Transfers)
        (transfer_cells (transfer_of parts.now transfer.now)))) }
{
    write_stop_ids(parts, transfer, rows)?;
    write_route_ids(parts, transfer, rows)?;
    write_trip_ids(parts, transfer, rows)?;
    rows.number(transfer.transfer_type.number())?;
    rows.optional_count(transfer.min_transfer_time)?;
    rows.last()
}

fn write_stop_ids<S: Sink>(
    parts: &Parts,
    transfer: &Transfer,
    rows: &mut Fields<S>,
) -> Result<(), OutOfMemory>
    requires from { names_stop parts.now transfer.now.from_stop_id ≡ true }
    requires to { names_stop parts.now transfer.now.to_stop_id ≡ true }
    ensures { OnOk result (rows.new ≡ S.takes.next (S.takes.first rows.old
        (cell_text id (option_map word (transfer_of parts.now transfer.now).from_stop_id)))
        (cell_text id (option_map word (transfer_of parts.now transfer.now).to_stop_id))) }
{
    rows.first(stop_id_if_any(parts, transfer.from_stop_id))?;
    rows.text(stop_id_if_any(parts, transfer.to_stop_id))
}

fn write_route_ids<S: Sink>(
    parts: &Parts,
    transfer: &Transfer,
    rows: &mut Fields<S>,
) -> Result<(), OutOfMemory>
    requires from { names_route parts.now transfer.now.from_route_id ≡ true }
    requires to { names_route parts.now transfer.now.to_route_id ≡ true }
    ensures { OnOk result (rows.new ≡ S.takes.next (S.takes.next rows.old
        (cell_text id (option_map word (transfer_of parts.now transfer.now).from_route_id)))
        (cell_text id (option_map word (transfer_of parts.now transfer.now).to_route_id))) }
{
    rows.text(route_id_if_any(parts, transfer.from_route_id))?;
    rows.text(route_id_if_any(parts, transfer.to_route_id))
}

fn write_trip_ids<S: Sink>(
    parts: &Parts,
    transfer: &Transfer,
    rows: &mut Fields<S>,
) -> Result<(), OutOfMemory>
    requires from { names_trip parts.now transfer.now.from_trip_id ≡ true }
    requires to { names_trip parts.now transfer.now.to_trip_id ≡ true }
    ensures { OnOk result (rows.new ≡ S.takes.next (S.takes.next rows.old
        (cell_text id (option_map word (transfer_of parts.now transfer.now).from_trip_id)))
        (cell_text id (option_map word (transfer_of parts.now transfer.now).to_trip_id))) }
{
    rows.text(trip_id_if_any(parts, transfer.from_trip_id))?;
    rows.text(trip_id_if_any(parts, transfer.to_trip_id))
}
