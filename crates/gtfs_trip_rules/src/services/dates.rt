ghost use Rattle.std.specs.Prelude.{◌≡◌, ℕ, IfOk, map, option_map};
ghost use Rattle.gtfs_schema.specs.KeyRules.{all_there};
ghost use Rattle.gtfs_trip_rules.specs.ServiceRows.{exception_in_texts};
ghost use Rattle.gtfs_trip_rules.specs.ServiceFields.{exception_in};
ghost use Rattle.gtfs_trip_rules.specs.ServiceCalendars.{each_day_once, exceptions_of_rows};

use gtfs_days::Exception;
use gtfs_field::{Day, OutOfMemory, read_date};
use gtfs_schema::read_choice;
use gtfs_table::{File, Tables};
use std::alloc::Global;

// The indices of the columns of calendar_dates.txt that say what happens on which day.
#[derive(Clone, Copy)]
pub(crate) struct Dates {
    date: Option<usize>,
    exception_type: Option<usize>,
}

impl Dates {
    pub(crate) fn new(tables: &Tables) -> Dates
        ensures { (n : ℕ) → exception_in tables.now result n ≡ exception_in_texts tables.now n }
    {
        Dates {
            date: tables.column(File::CalendarDates, "date"),
            exception_type: tables.column(File::CalendarDates, "exception_type"),
        }
    }

    // The exceptions of a service with these rows, where they are sound: a second one for a day has
    // the key of the first.
    pub(crate) fn of(
        &self,
        alloc: Global,
        tables: &Tables,
        rows: &[(&str, usize)],
    ) -> Result<Option<Vec<(Day, Exception)>>, OutOfMemory>
        ensures { IfOk result (λ found. option_map (λ es. es.items) found
            ≡ exceptions_of_rows (exception_in tables.now self.now) (map (λ r. r.1) rows.now)) }
    {
        let Some(exceptions) = self.read_all(alloc, tables, rows)? else {
            return Ok(None);
        };
        if names_each_day_once(alloc, &exceptions)? {
            Ok(Some(exceptions))
        } else {
            Ok(None)
        }
    }

    fn read_all(
        &self,
        alloc: Global,
        tables: &Tables,
        rows: &[(&str, usize)],
    ) -> Result<Option<Vec<(Day, Exception)>>, OutOfMemory>
        ensures { IfOk result (λ found. option_map (λ es. es.items) found
            ≡ all_there (map (exception_in tables.now self.now) (map (λ r. r.1) rows.now))) }
    {
        let mut exceptions = Vec::new(alloc);
        for row in rows {
            match self.read(tables, row.1) {
                Some(exception) => exceptions.push(exception)?,
                None => return Ok(None),
            }
        }
        Ok(Some(exceptions))
    }

    // A row, where its day and its type are readable.
    fn read(&self, tables: &Tables, row: usize) -> Option<(Day, Exception)>
        ensures { result ≡ exception_in tables.now self.now row }
    {
        let record = tables.record(File::CalendarDates, row);
        let day = read_date(record.value(self.date)).ok()?;
        let number = read_choice(&[(1, 2)], record.value(self.exception_type)).ok()?;
        if number == 1 {
            Some((day, Exception::Added))
        } else {
            Some((day, Exception::Removed))
        }
    }
}

// Whether no day stands twice.
fn names_each_day_once(alloc: Global, exceptions: &[(Day, Exception)]) -> Result<bool, OutOfMemory>
    ensures { IfOk result (λ once. once ≡ each_day_once exceptions.now) }
{
    let mut days = days_of(alloc, exceptions)?;
    days.sort_unstable();
    Ok(days.is_sorted_by(|a, b| a < b))
}

fn days_of(alloc: Global, exceptions: &[(Day, Exception)]) -> Result<Vec<i32>, OutOfMemory>
    ensures { IfOk result (λ days. days.items ≡ map (λ e. e.0) exceptions.now) }
{
    let mut days = Vec::new(alloc);
    for exception in exceptions {
        days.push(exception.0.number())?;
    }
    Ok(days)
}
