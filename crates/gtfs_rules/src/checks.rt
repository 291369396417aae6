ghost use Rattle.std.specs.Prelude.{◌≡◌, IfOk, OnOk};
ghost use Rattle.gtfs_schema.specs.steps.FeedIds.{AreIdsOf};
ghost use Rattle.gtfs_schema.specs.steps.FoundProblems.{Reports};
ghost use Rattle.gtfs_rules.specs.steps.PartsOfCheck.{every, in_files, in_periods_and_services, in_trips};
ghost use Rattle.gtfs_schema.specs.Problems.{IsReport};
ghost use Rattle.gtfs_schema.specs.steps.StopTypes.{AreStopTypes};
ghost use Rattle.gtfs_trip_rules.specs.KeptOrder.{AreKeptOf};

use crate::report::Report;
use gtfs_field::OutOfMemory;
use gtfs_row_rules::{report_files, report_headers, report_rows};
use gtfs_schema::{FeedIds, Found, stop_types};
use gtfs_stop_times::KeptStopTimes;
use gtfs_table::Tables;
use gtfs_trip_rules::{
    report_counts, report_order, report_overlaps, report_services, report_stop_times,
};
use std::alloc::Global;

/// Checks the tables of a dataset: the report lists each of its problems once, in order.
///
/// The rules rest on the GTFS Schedule Reference, each on the section of its file; the
/// codes and the order are this toolkit's. The time grows as n log n for every dataset. The
/// tables are lent and not changed.
///
/// # Errors
/// `OutOfMemory` where memory ran out, and where stop_times.txt has more than 4,294,967,295 rows,
/// or there are more than 536,870,912 trips.
pub fn check<'a>(alloc: Global, tables: &'a Tables) -> Result<Report<'a>, OutOfMemory>
    ensures dataset { IfOk result (λ report. report.dataset ≡ tables.now) }
    ensures report { IfOk result (λ report. IsReport tables.now report.problems) }
{
    let ids = FeedIds::new(alloc, tables)?;
    let mut found = Found::new(alloc);
    let stop_times = report_all(alloc, tables, &ids, &mut found)?;
    Ok(Report::new(tables, ids, found, stop_times))
}

// All that is wrong, given the ids of the feed.
// This and the parts that judge stop times hand these on.
fn report_all<'a>(
    alloc: Global,
    tables: &'a Tables,
    ids: &FeedIds<'a>,
    found: &mut Found<'a>,
) -> Result<KeptStopTimes, OutOfMemory>
    requires { AreIdsOf tables.now ids.now }
    ensures reported { OnOk result (Reports tables.now every found.old found.new) }
    ensures kept { IfOk result (AreKeptOf tables.now) }
{
    let types = stop_types(alloc, tables)?;
    report_parts(alloc, tables, ids, types.as_slice(), found)
}

// The same, given the types of its stops too.
fn report_parts<'a>(
    alloc: Global,
    tables: &'a Tables,
    ids: &FeedIds<'a>,
    types: &[Option<i64>],
    found: &mut Found<'a>,
) -> Result<KeptStopTimes, OutOfMemory>
    requires ids { AreIdsOf tables.now ids.now }
    requires types { AreStopTypes tables.now types.now }
    ensures reported { OnOk result (Reports tables.now every found.old found.new) }
    ensures kept { IfOk result (AreKeptOf tables.now) }
{
    report_files_and_headers(tables, found)?;
    report_rows(alloc, tables, ids, types, found)?;
    let stop_times = report_trips(alloc, tables, ids, types, found)?;
    report_periods_and_services(alloc, tables, found)?;
    Ok(stop_times)
}

// What is wrong with files and with their headers.
fn report_files_and_headers<'a>(
    tables: &'a Tables,
    found: &mut Found<'a>,
) -> Result<(), OutOfMemory>
    ensures { OnOk result (Reports tables.now in_files found.old found.new) }
{
    report_files(tables, found)?;
    report_headers(tables, found)
}

// What is wrong with stop times and with the trips that they name.
fn report_trips<'a>(
    alloc: Global,
    tables: &'a Tables,
    ids: &FeedIds<'a>,
    types: &[Option<i64>],
    found: &mut Found<'a>,
) -> Result<KeptStopTimes, OutOfMemory>
    requires ids { AreIdsOf tables.now ids.now }
    requires types { AreStopTypes tables.now types.now }
    ensures reported { OnOk result (Reports tables.now in_trips found.old found.new) }
    ensures kept { IfOk result (AreKeptOf tables.now) }
{
    let notes = report_stop_times(alloc, tables, ids, types, found)?;
    report_counts(tables, &notes, found)?;
    report_order(tables, notes, found)
}

// What is wrong with the periods of trips and with services.
fn report_periods_and_services<'a>(
    alloc: Global,
    tables: &'a Tables,
    found: &mut Found<'a>,
) -> Result<(), OutOfMemory>
    ensures { OnOk result (Reports tables.now in_periods_and_services found.old found.new) }
{
    report_overlaps(alloc, tables, found)?;
    report_services(alloc, tables, found)
}
