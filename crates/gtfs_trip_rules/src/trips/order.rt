ghost use Rattle.std.specs.Prelude.{◌≡◌, ◌+◌, ◌<◌, drop, length, option_map, pos, IfOk, OnOk};
ghost use Rattle.gtfs_table.specs.Tables.{Dataset};
ghost use Rattle.gtfs_table.specs.declared.file.File.TheVariants as file;
ghost use Rattle.gtfs_schema.specs.declared.file_name.FileName.TheVariants as file_name;
ghost use Rattle.gtfs_schema.specs.steps.FoundProblems.{Reports};
ghost use Rattle.gtfs_trip_rules.specs.KeptRows.{AllKeep};
ghost use Rattle.gtfs_trip_rules.specs.KeptOrder.{AreKeptOf};
ghost use Rattle.gtfs_trip_rules.specs.StopTimePicks.{breaks_order};
ghost use Rattle.gtfs_trip_rules.specs.JudgedTrips.{ends_trip, is_end_untimed, is_late, is_twin, repeats_last, AddsOfRow};
ghost use Rattle.gtfs_trip_rules.specs.TripNotes.{trip_notes_in};
ghost use Rattle.gtfs_trip_rules.specs.TripOrder.{is_left_later, AreInOrder};

use crate::trips::judge::Judge;
use crate::trips::notes::TripNotes;
use gtfs_field::OutOfMemory;
use gtfs_schema::{Code, FileName, Found, Problem};
use gtfs_stop_times::{KeptStopTimes, StopTime};
use gtfs_table::{File, Tables};

/// Reports what the order of stop times breaks: a sequence of a trip that comes twice (E09), a
/// first or last row without times (E15), and a time that goes back (E17). Hands on the stop times
/// in their order: by trip, sequence and row. The notes are those of these tables.
///
/// # Errors
/// `OutOfMemory` where the problems that were found cannot grow,
/// or there is no room to put the rows in order.
pub fn report_order<'a>(
    tables: &'a Tables,
    notes: TripNotes<'_>,
    found: &mut Found<'a>,
) -> Result<KeptStopTimes, OutOfMemory>
    requires notes { notes.notes ≡ trip_notes_in tables.now }
    requires kept { AllKeep tables.now notes.rows }
    ensures reported { OnOk result (Reports tables.now breaks_order found.old found.new) }
    ensures kept { IfOk result (AreKeptOf tables.now) }
{
    let are_faultless = notes.are_faultless();
    let rows = notes.into_order()?;
    if are_faultless {
        return Ok(rows);
    }
    report_rows(&rows, found)?;
    Ok(rows)
}

// Reports what these rows break by their order, in one pass.
fn report_rows<'a>(rows: &KeptStopTimes, found: &mut Found<'a>) -> Result<(), OutOfMemory>
    ensures { OnOk result ((d : Dataset) → AreInOrder d rows.now
        → Reports d breaks_order found.old found.new) }
{
    let mut judge = Judge::new();
    for at in 0..rows.len() {
        let row = rows.get(at);
        report_row(&row, &judge, is_untimed_end(rows, at, &row, &judge), found)?;
        judge.note(&row, false);
    }
    Ok(())
}

// Reports what a row breaks after those that were judged.
// It is an end without times of its trip or not.
#[inline(always)]
fn report_row<'a>(
    row: &StopTime,
    judge: &Judge,
    is_untimed_end: bool,
    found: &mut Found<'a>,
) -> Result<(), OutOfMemory>
    ensures { OnOk result (AddsOfRow row.now (repeats_last judge.now.last row.now) is_untimed_end
        (is_late judge.now.last row.now) found.old found.new) }
{
    let twice = problem(row, Code::E09, "stop_sequence");
    found.report_if(twice, judge.repeats(row))?;
    let untimed = problem(row, Code::E15, "arrival_time");
    found.report_if(untimed, is_untimed_end)?;
    let back = problem(row, Code::E17, "arrival_time");
    found.report_if(back, judge.is_late(row))
}

fn problem<'a>(row: &StopTime, code: Code, column: &'static str) -> Problem<'a>
    ensures { result ≡ record {
      file = file_name.Kept file.StopTimes;
      row = row.now.row;
      code = code;
      column = column.entry;
    } }
{
    Problem {
        file: FileName::Kept(File::StopTimes),
        row: row.row as usize,
        code,
        column,
    }
}

// Whether the row at an index has no times, and is the first of its trip,
// or of the rows with its trip's greatest sequence.
#[inline(always)]
fn is_untimed_end(rows: &KeptStopTimes, at: usize, row: &StopTime, judge: &Judge) -> bool
    requires { at < length rows.now }
    ensures { result ≡ is_end_untimed judge.now.last row.now (drop (at + 1) rows.now) }
{
    row.is_untimed() && (!judge.goes_on(row) || (!judge.repeats(row) && ends(rows, at, row)))
}

// Whether no row after an index is of this row's trip and has a greater sequence.
fn ends(rows: &KeptStopTimes, at: usize, row: &StopTime) -> bool
    requires { at < length rows.now }
    ensures { result ≡ ends_trip row.now (drop (at + 1) rows.now) }
{
    let len = rows.len();
    for next in at + 1..len {
        let other = rows.get(next);
        if !is_twin(row, &other) {
            return row.trip != other.trip;
        }
    }
    true
}

// Whether two rows have the same trip and sequence.
#[inline(always)]
fn is_twin(row: &StopTime, other: &StopTime) -> bool
    ensures { result ≡ is_twin row.now other.now }
{
    row.trip == other.trip && row.stop_row.stop_sequence == other.stop_row.stop_sequence
}

// Whether a time at which a row is left comes after that at which another one is reached.
#[inline(always)]
pub(crate) fn is_left_later(left: Option<u32>, arrival: Option<u32>) -> bool
    ensures { result ≡ is_left_later (option_map pos left) (option_map pos arrival) }
{
    match (left, arrival) {
        (Some(left), Some(arrival)) => arrival < left,
        _ => false,
    }
}
