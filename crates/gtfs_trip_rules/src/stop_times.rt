pub(crate) mod columns;
mod fields;
mod named;
pub(crate) mod reading;
mod times;

ghost use Rattle.std.specs.List.{cons_option};
ghost use Rattle.std.specs.Prelude.{◌≡◌, ◌+◌, ◌++◌, [], true, ℕ, codes, option_and_then, IfOk, OnOk};
ghost use Rattle.gtfs_table.specs.declared.file.File.TheVariants as file;
ghost use Rattle.gtfs_schema.specs.declared.file_name.FileName.TheVariants as file_name;
ghost use Rattle.gtfs_table.specs.Tables.{Dataset, record_at};
ghost use Rattle.gtfs_table.specs.Rows.{is_row, records_in};
ghost use Rattle.gtfs_schema.specs.IdNumbers.{ids_by_bytes, number_among};
ghost use Rattle.gtfs_schema.specs.steps.FeedIds.{AreIdsOf};
ghost use Rattle.gtfs_schema.specs.steps.FoundProblems.{Reports};
ghost use Rattle.gtfs_schema.specs.steps.Ids.{first_row_with, ids_of};
ghost use Rattle.gtfs_schema.specs.steps.StopTypes.{AreStopTypes};
ghost use Rattle.gtfs_trip_rules.specs.StopTimePicks.{in_rows, in_stop_times};
ghost use Rattle.gtfs_trip_rules.specs.KeptRows.{AllKeep};
ghost use Rattle.gtfs_trip_rules.specs.StopTimeFields.{text_of, value_in};
ghost use Rattle.gtfs_trip_rules.specs.StopTimes.{AreNamedRows, AreNumbersOf, AreStopTimeColumns, IsRow, IsStopTime, ReportsOfRow};
ghost use Rattle.gtfs_trip_rules.specs.TripNotes.{trip_notes_in};
ghost use Rattle.gtfs_stop_times.specs.StopTimeOrder.{AreEarlier};
ghost use Rattle.gtfs_trip_rules.specs.TripTexts.{note_read};

use crate::stop_times::columns::{ReadStopTime, StopTimeColumns};
use crate::stop_times::fields::report_fields;
use crate::stop_times::named::{NamedIds, NamedRows};
use crate::stop_times::times::report_times;
use crate::trips::notes::TripNotes;
use gtfs_field::OutOfMemory;
use gtfs_schema::{Code, FeedIds, FileName, Found, Problem};
use gtfs_table::{File, Record, Tables};
use std::alloc::Global;

/// Reports what is wrong with the rows of `stop_times.txt` by themselves, and what they name that
/// is not there or of another kind, and hands on what they say of their trips. It is one pass, in
/// which each field is cut and read once. The ids and location types are those of these tables.
///
/// # Errors
/// `OutOfMemory` where the problems that were found cannot grow, or there is no room for the notes.
pub fn report_stop_times<'a, 'i>(
    alloc: Global,
    tables: &'a Tables,
    ids: &'i FeedIds<'a>,
    types: &[Option<i64>],
    found: &mut Found<'a>,
) -> Result<TripNotes<'i>, OutOfMemory>
    requires ids { AreIdsOf tables.now ids.now }
    requires types { AreStopTypes tables.now types.now }
    ensures reported { OnOk result (Reports tables.now in_stop_times found.old found.new) }
    ensures notes { IfOk result (λ notes. notes.notes ≡ trip_notes_in tables.now) }
    ensures kept { IfOk result (λ notes. AllKeep tables.now notes.rows) }
{
    let count = tables.records(File::StopTimes);
    let mut notes = TripNotes::with_room(alloc, &ids.network.trips, count)?;
    read_rows(tables, ids, types, &mut notes, found)?;
    Ok(notes)
}

// Reports what is wrong with the rows, and notes what they say, where nothing is noted yet.
fn read_rows<'a, 'i>(
    tables: &'a Tables,
    ids: &'i FeedIds<'a>,
    types: &[Option<i64>],
    notes: &mut TripNotes<'i>,
    found: &mut Found<'a>,
) -> Result<(), OutOfMemory>
    requires ids { AreIdsOf tables.now ids.now }
    requires types { AreStopTypes tables.now types.now }
    requires none { notes.old
        ≡ record { trips = ids_of ids.now.network.trips; notes = []; rows = [] } }
    ensures reported { OnOk result (Reports tables.now in_stop_times found.old found.new) }
    ensures notes { OnOk result (notes.new.notes ≡ trip_notes_in tables.now) }
    ensures kept { OnOk result (AllKeep tables.now notes.new.rows) }
{
    let columns = StopTimeColumns::of(tables);
    let mut named = NamedRows::new(&*ids, types);
    for (row, record) in tables.rows(File::StopTimes) {
        read_row(&columns, &mut named, row, &record, notes, found)?;
    }
    Ok(())
}

// Reports what is wrong with one row, and notes what it says.
#[inline(always)]
fn read_row<'a: 'i, 'i>(
    columns: &StopTimeColumns<'a>,
    named: &mut NamedRows<'i, '_>,
    row: usize,
    fields: &Record<'a>,
    notes: &mut TripNotes<'i>,
    found: &mut Found<'a>,
) -> Result<(), OutOfMemory>
    requires columns { AreStopTimeColumns columns.now.tables.now columns.now }
    requires named { AreNamedRows columns.now.tables.now named.old }
    requires row { is_row (records_in columns.now.tables.now file.StopTimes) row ≡ true }
    requires fields { fields.now
        ≡ record_at (records_in columns.now.tables.now file.StopTimes) row }
    requires trips { notes.old.trips
        ≡ ids_by_bytes columns.now.tables.now file.Trips (codes "trip_id") }
    requires earlier { AreEarlier row notes.old.rows }
    ensures named { AreNamedRows columns.now.tables.now named.new }
    ensures reported { OnOk result
        (ReportsOfRow columns.now.tables.now in_rows row found.old found.new) }
    ensures trips { notes.new.trips ≡ notes.old.trips }
    ensures earlier { OnOk result (AreEarlier (row + 1) notes.new.rows) }
    ensures notes { OnOk result (notes.new.notes
        ≡ notes.old.notes ++ cons_option (note_read columns.now.tables.now row) []) }
    ensures kept { OnOk result (AllKeep columns.now.tables.now notes.old.rows
        → AllKeep columns.now.tables.now notes.new.rows) }
{
    let ids = named.find(fields.value(columns.trip_id), fields.value(columns.stop_id));
    let stop_time = columns.stop_time(row, fields, ids.trip.reading, ids.stop.reading);
    report_row(columns, named, &stop_time, &ids, found)?;
    take_note(&stop_time, &ids, notes)
}

// Reports what is wrong with one row, whose ids were found.
fn report_row<'a>(
    columns: &StopTimeColumns<'a>,
    named: &NamedRows<'_, '_>,
    stop_time: &ReadStopTime<'a>,
    ids: &NamedIds<'a>,
    found: &mut Found<'a>,
) -> Result<(), OutOfMemory>
    requires trip { ids.now.trip.row ≡ option_and_then
        (first_row_with named.now.trips.ids.now) (text_of (value_in stop_time.now.trip_id)) }
    requires stop { ids.now.stop.row ≡ option_and_then
        (first_row_with named.now.stops.ids.now) (text_of (value_in stop_time.now.stop_id)) }
    ensures { OnOk result ((d : Dataset) → AreStopTimeColumns d columns.now
        → AreNamedRows d named.now → IsRow d stop_time.now
        → ReportsOfRow d in_rows stop_time.now.row found.old found.new) }
{
    report_fields(columns, stop_time, found)?;
    named.report(stop_time, ids, found)?;
    report_times(stop_time, found)
}

// Takes note of what a row says of its trip, where it names one; these are its ids.
#[inline(always)]
fn take_note<'i>(
    stop_time: &ReadStopTime<'i>,
    ids: &NamedIds<'i>,
    notes: &mut TripNotes<'i>,
) -> Result<(), OutOfMemory>
    requires known { ids.now.trip.number ≡ option_and_then (number_among notes.old.trips)
        (text_of (value_in stop_time.now.trip_id)) }
    requires earlier { AreEarlier stop_time.now.row notes.old.rows }
    ensures trips { notes.new.trips ≡ notes.old.trips }
    ensures earlier { OnOk result (AreEarlier (stop_time.now.row + 1) notes.new.rows) }
    ensures notes { OnOk result ((d : Dataset) (n : ℕ) → IsStopTime d n stop_time.now
        → notes.new.notes ≡ notes.old.notes ++ cons_option (note_read d n) []) }
    ensures kept { OnOk result ((d : Dataset) (n : ℕ) → IsStopTime d n stop_time.now
        → AreNumbersOf d stop_time.now ids.now
        → AllKeep d notes.old.rows → AllKeep d notes.new.rows) }
{
    let Some(trip_id) = stop_time.trip_id.value() else {
        return Ok(());
    };
    let kept = stop_time.kept(ids.stop.number)?;
    notes.note(trip_id, ids.trip.number, kept)
}

// A problem of a row of stop_times.txt.
fn problem<'a>(row: usize, code: Code, column: &'static str) -> Problem<'a>
    ensures { result ≡ record {
      file = file_name.Kept file.StopTimes;
      row = row;
      code = code;
      column = column.entry;
    } }
{
    Problem {
        file: FileName::Kept(File::StopTimes),
        row,
        code,
        column,
    }
}
