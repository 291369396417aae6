//! The services, with their rows of calendar.txt and calendar_dates.txt (GTFS Schedule Reference,
//! both files).

ghost use Rattle.std.specs.Prelude.{◌≡◌, [], IfOk, OnOk, map, option_map};
ghost use Rattle.gtfs_schema.specs.Calendars.{first_service_row, week_in};
ghost use Rattle.gtfs_schema.specs.Problems.{Passes};
ghost use Rattle.gtfs_days.specs.Service.{IsOrdered};
ghost use Rattle.gtfs_reading.specs.ServiceIds.{service_ids};
ghost use Rattle.gtfs_rows.specs.ContentRead.{content_of, service_row_in};
ghost use Rattle.gtfs_rows.specs.RowsInMemory.{service_of};
ghost use Rattle.gtfs_table.specs.declared.file.File.TheVariants as file;

use crate::calendar::week;
use crate::columns::column_indices;
use crate::dates::exceptions;
use crate::service_ids::ServiceIds;
use gtfs_days::{Service, Week};
use gtfs_field::{List, OutOfMemory, Text};
use gtfs_rows::ServiceRow;
use gtfs_schema::{calendar_columns, calendar_dates_columns};
use gtfs_table::{File, Tables};
use gtfs_trip_rules::RowsById;
use std::alloc::Global;
use std::marker::Model;

// The services by their ids.
pub(crate) fn services(
    alloc: Global,
    tables: &Tables,
    ids: &ServiceIds<'_>,
) -> Result<List<ServiceRow>, OutOfMemory>
    requires passes { Passes tables.now }
    requires ids { ids.now ≡ service_ids tables.now }
    ensures { IfOk result (λ rows. map service_of rows ≡ (content_of tables.now).services) }
{
    let calendars = Calendars::new(alloc, tables)?;
    let mut services = Vec::with_capacity(alloc, ids.len())?;
    calendars
        .push_services(alloc, ids, &mut services)
        .and(Ok(List::new(services)))
}

// Both calendar files with their columns found, and their rows by service.
struct Calendars<'a> {
    tables: &'a Tables,
    week_columns: [Option<usize>; 10],
    date_columns: [Option<usize>; 3],
    week_rows: RowsById<'a>,
    date_rows: RowsById<'a>,
}

// Written out, so that a function that lets calendars go has one call to prove.
impl Drop for Calendars<'_> {
    fn drop(self) {
        let Calendars {
            tables: _,
            week_columns: _,
            date_columns: _,
            week_rows: _,
            date_rows: _,
        } = self;
    }
}

impl<'a> Model for Calendars<'a> {
    ghost use Rattle.gtfs_table.specs.Tables.{Dataset};
    ghost use Rattle.gtfs_reading.specs.CalendarRows.{AreCalendars};

    ghost Value = { Dataset };

    ghost view = { λ c. c.tables.now };

    ghost invariant = { AreCalendars };
}

impl<'a> Calendars<'a> {
    fn new(alloc: Global, tables: &'a Tables) -> Result<Calendars<'a>, OutOfMemory>
        ensures { IfOk result (λ calendars. calendars ≡ tables.now) }
    {
        let week_columns = column_indices(tables, File::Calendar, &calendar_columns());
        let date_columns = column_indices(tables, File::CalendarDates, &calendar_dates_columns());
        let week_rows = RowsById::new(alloc, tables, File::Calendar, week_columns[0])?;
        let date_rows = RowsById::new(alloc, tables, File::CalendarDates, date_columns[0])?;
        Ok(Calendars {
            tables,
            week_columns,
            date_columns,
            week_rows,
            date_rows,
        })
    }

    // Fills a list, which has one owner whichever service finds no memory.
    fn push_services(
        &self,
        alloc: Global,
        ids: &ServiceIds<'_>,
        services: &mut Vec<ServiceRow>,
    ) -> Result<(), OutOfMemory>
        requires passes { Passes self.now }
        requires none { services.old.items ≡ [] }
        ensures { OnOk result (map service_of services.new.items
            ≡ map (service_row_in self.now) ids.now) }
    {
        for number in 0..ids.len() {
            services.push(self.service(alloc, ids.id(number))?)?;
        }
        Ok(())
    }

    // The service of an id: its calendar row, if any, and its exceptions.
    fn service(&self, alloc: Global, id: &str) -> Result<ServiceRow, OutOfMemory>
        requires { Passes self.now }
        ensures { IfOk result (λ s. service_of s ≡ service_row_in self.now id.now) }
    {
        let week = self.week(id);
        let rows = self.date_rows.of(id);
        let exceptions = exceptions(alloc, self.tables, &self.date_columns, rows)?;
        Ok(ServiceRow {
            service_id: Text::copy_of(alloc, id)?,
            service: Service::new(alloc, week, &exceptions)?,
        })
    }

    // The calendar row of a service.
    fn week(&self, id: &str) -> Option<Week>
        requires { Passes self.now }
        ensures value { result
            ≡ option_map (week_in self.now) (first_service_row self.now file.Calendar id.now) }
        ensures ordered { IsOrdered result }
    {
        match self.week_rows.of(id) {
            [] => None,
            [first, ..] => Some(week(self.tables, &self.week_columns, first.1)),
        }
    }
}
