ghost use Rattle.std.specs.Prelude.{◌≡◌, ◌&&◌, ◌∷◌, [], ℕ, codes, map, IfOk, OnOk};
ghost use Rattle.gtfs_schema.specs.steps.FoundProblems.{Reports};
ghost use Rattle.gtfs_schema.specs.steps.KeptColumns.{at_column, of_codes};
ghost use Rattle.gtfs_schema.specs.Problems.{holds_in};
ghost use Rattle.gtfs_table.specs.Rows.{is_row as row_of, records_in};
ghost use Rattle.gtfs_trip_rules.specs.ServiceFields.{calendars_of};
ghost use Rattle.gtfs_trip_rules.specs.ServiceRows.{calendars_in};
ghost use Rattle.gtfs_trip_rules.specs.ServiceCalendars.{are_idle, file_of, first_of, is_reported, reported_row};
ghost use Rattle.gtfs_schema.specs.declared.code.Code.TheVariants as code;

pub(crate) mod by_id;
mod dates;
mod idle;
mod source;
mod weekdays;
mod weeks;

use crate::services::by_id::RowsById;
use crate::services::dates::Dates;
use crate::services::idle::is_never_active;
use crate::services::source::Source;
use crate::services::weeks::Weeks;
use gtfs_field::OutOfMemory;
use gtfs_schema::{Code, FileName, Found, Problem, values};
use gtfs_table::{File, Tables};
use std::alloc::Global;

/// Reports each service that runs on no day (W07).
///
/// # Errors
/// `OutOfMemory` where the problems that were found cannot grow, or there is no room for the rows
/// of the services by their ids.
pub fn report_services<'a>(
    alloc: Global,
    tables: &'a Tables,
    found: &mut Found<'a>,
) -> Result<(), OutOfMemory>
    ensures { OnOk result (Reports tables.now (of_codes (code.W07 ∷ [])) found.old found.new) }
{
    let services = Services::new(alloc, tables)?;
    report_both(alloc, tables, &services, found)
}

// Reports each row of both files at which its service is reported.
fn report_both<'a>(
    alloc: Global,
    tables: &'a Tables,
    services: &Services<'a>,
    found: &mut Found<'a>,
) -> Result<(), OutOfMemory>
    requires { calendars_of services.now ≡ calendars_in tables.now }
    ensures { OnOk result (Reports tables.now (of_codes (code.W07 ∷ [])) found.old found.new) }
{
    report_source(alloc, tables, services, Source::Weeks, found)?;
    report_source(alloc, tables, services, Source::Dates, found)
}

// The rows of both files by service id, and the indices of the columns that say when it runs.
#[derive(Drop)]
struct Services<'a> {
    tables: &'a Tables,
    week_id: Option<usize>,
    date_id: Option<usize>,
    week_rows: RowsById<'a>,
    date_rows: RowsById<'a>,
    weeks: Weeks,
    dates: Dates,
}

impl<'a> Services<'a> {
    fn new(alloc: Global, tables: &'a Tables) -> Result<Services<'a>, OutOfMemory>
        ensures { IfOk result (λ services. calendars_of services ≡ calendars_in tables.now) }
    {
        let week_id = tables.column(File::Calendar, "service_id");
        let date_id = tables.column(File::CalendarDates, "service_id");
        Ok(Services {
            tables,
            week_id,
            date_id,
            week_rows: RowsById::new(alloc, tables, File::Calendar, week_id)?,
            date_rows: RowsById::new(alloc, tables, File::CalendarDates, date_id)?,
            weeks: Weeks::new(tables),
            dates: Dates::new(tables),
        })
    }

    // Whether a service is reported at this row: all its rows are sound, it runs on no day, and
    // this row is its first.
    fn is_reported(&self, alloc: Global, source: Source, row: usize) -> Result<bool, OutOfMemory>
        ensures { IfOk result (λ reported. reported
            ≡ is_reported (calendars_of self.now) source row) }
    {
        let id = self.id(source, row);
        if !values::is_id(id) {
            return Ok(false);
        }
        let weeks = self.week_rows.of(id);
        let dates = self.date_rows.of(id);
        if reported_row(source, weeks, dates) != Some(row) {
            return Ok(false);
        }
        self.is_idle(alloc, weeks, dates)
    }

    fn id(&self, source: Source, row: usize) -> &'a str
        ensures { result.now ≡ (calendars_of self.now).ids source row }
    {
        match source {
            Source::Weeks => self.tables.record(File::Calendar, row).value(self.week_id),
            Source::Dates => self
                .tables
                .record(File::CalendarDates, row)
                .value(self.date_id),
        }
    }

    // Whether the rows of a service are sound, and it runs on no day.
    fn is_idle(
        &self,
        alloc: Global,
        weeks: &[(&str, usize)],
        dates: &[(&str, usize)],
    ) -> Result<bool, OutOfMemory>
        ensures { IfOk result (λ idle. idle
            ≡ are_idle (calendars_of self.now)
            (map (λ r. r.1) weeks.now) (map (λ r. r.1) dates.now)) }
    {
        let Some(week) = self.weeks.of(self.tables, weeks) else {
            return Ok(false);
        };
        match self.dates.of(alloc, self.tables, dates)? {
            Some(exceptions) => is_never_active(alloc, week, &exceptions),
            None => Ok(false),
        }
    }
}

// Reports each row of one of the files at which its service is reported.
fn report_source<'a>(
    alloc: Global,
    tables: &'a Tables,
    services: &Services<'a>,
    source: Source,
    found: &mut Found<'a>,
) -> Result<(), OutOfMemory>
    requires { (n : ℕ) → holds_in code.W07 tables.now (file_of source) n (codes "service_id")
        ≡ (row_of (records_in tables.now (file_of source)) n
        && is_reported (calendars_of services.now) source n) }
    ensures { OnOk result (Reports tables.now
        (at_column code.W07 (file_of source) (codes "service_id")) found.old found.new) }
{
    let file = source.file();
    for (row, _) in tables.rows(file) {
        let reported = services.is_reported(alloc, source, row)?;
        let problem = Problem {
            file: FileName::Kept(file),
            row,
            code: Code::W07,
            column: "service_id",
        };
        found.report_if(problem, reported)?;
    }
    Ok(())
}

// The row at which a service with these rows is reported.
fn reported_row(source: Source, weeks: &[(&str, usize)], dates: &[(&str, usize)]) -> Option<usize>
    ensures { result ≡ reported_row source (map (λ r. r.1) weeks.now) (map (λ r. r.1) dates.now) }
{
    match source {
        Source::Weeks => first_row(weeks),
        Source::Dates => {
            if weeks.is_empty() {
                first_row(dates)
            } else {
                None
            }
        }
    }
}

fn first_row(rows: &[(&str, usize)]) -> Option<usize>
    ensures { result ≡ first_of (map (λ r. r.1) rows.now) }
{
    match rows {
        [] => None,
        [first, ..] => Some(first.1),
    }
}
