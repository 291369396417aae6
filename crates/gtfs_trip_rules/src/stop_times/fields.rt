ghost use Rattle.std.specs.Prelude.{◌&&◌, OnOk};
ghost use Rattle.gtfs_table.specs.declared.file.File.TheVariants as file;
ghost use Rattle.gtfs_schema.specs.steps.FieldCodes.{is_found_at, is_in_row};
ghost use Rattle.gtfs_schema.specs.steps.FoundProblems.{Adds};
ghost use Rattle.gtfs_trip_rules.specs.StopTimes.{fields_report};

use crate::stop_times::columns::{ReadStopTime, StopTimeColumns};
use crate::stop_times::problem;
use gtfs_field::OutOfMemory;
use gtfs_schema::{Code, Found, length_code};

// Reports what is wrong with the length of a row and with its fields. A column that the header does
// not name has to be filled in no row.
pub(crate) fn report_fields<'a>(
    columns: &StopTimeColumns<'a>,
    stop_time: &ReadStopTime<'a>,
    found: &mut Found<'a>,
) -> Result<(), OutOfMemory>
    ensures { OnOk result (Adds (λ p. is_in_row file.StopTimes stop_time.now.row p
        && fields_report columns.now stop_time.now p) found.old found.new) }
{
    let length = length_code(columns.width, stop_time.fields);
    let trip_id = stop_time.trip_id.code(columns.trip_id.is_some());
    let stop_id = stop_time.stop_id.code(columns.stop_id.is_some());
    let sequence = stop_time
        .stop_sequence
        .code(columns.stop_sequence.is_some());
    let row = stop_time.row;
    report(row, "", length, found)?;
    report(row, "trip_id", trip_id, found)?;
    report(
        row,
        "arrival_time",
        stop_time.arrival_time.code(false),
        found,
    )?;
    report(
        row,
        "departure_time",
        stop_time.departure_time.code(false),
        found,
    )?;
    report(row, "stop_id", stop_id, found)?;
    report(row, "stop_sequence", sequence, found)?;
    report(row, "stop_headsign", stop_time.stop_headsign, found)?;
    report(row, "pickup_type", stop_time.pickup_type.code(false), found)?;
    report(
        row,
        "drop_off_type",
        stop_time.drop_off_type.code(false),
        found,
    )?;
    report(row, "timepoint", stop_time.timepoint.code(false), found)
}

// Reports what was found at a column of a row, if anything.
fn report<'a>(
    row: usize,
    column: &'static str,
    code: Option<Code>,
    found: &mut Found<'a>,
) -> Result<(), OutOfMemory>
    ensures { OnOk result (Adds (λ p. is_in_row file.StopTimes row p
        && is_found_at code column.now p) found.old found.new) }
{
    let Some(code) = code else {
        return Ok(());
    };
    found.report_if(problem(row, code, column), true)
}
