ghost use Rattle.std.specs.Prelude.{◌≡◌, ℕ, map, IfSome};
ghost use Rattle.gtfs_days.specs.Service.{IsOrdered};
ghost use Rattle.gtfs_trip_rules.specs.ServiceRows.{week_in_texts};
ghost use Rattle.gtfs_trip_rules.specs.ServiceFields.{week_in};
ghost use Rattle.gtfs_trip_rules.specs.ServiceCalendars.{if_ordered, week_of_rows};

use crate::services::weekdays::Weekdays;
use gtfs_days::Week;
use gtfs_field::read_date;
use gtfs_table::{File, Tables};

// The indices of the columns of calendar.txt that say on which days a service runs.
#[derive(Clone, Copy)]
pub(crate) struct Weeks {
    days: Weekdays,
    start: Option<usize>,
    end: Option<usize>,
}

impl Weeks {
    pub(crate) fn new(tables: &Tables) -> Weeks
        ensures { (n : ℕ) → week_in tables.now result n ≡ week_in_texts tables.now n }
    {
        Weeks {
            days: Weekdays::new(tables),
            start: tables.column(File::Calendar, "start_date"),
            end: tables.column(File::Calendar, "end_date"),
        }
    }

    // The calendar row of a service with these rows, if any, where they are sound: a second one has
    // the key of the first.
    pub(crate) fn of(&self, tables: &Tables, rows: &[(&str, usize)]) -> Option<Option<Week>>
        ensures value { result
            ≡ week_of_rows (week_in tables.now self.now) (map (λ r. r.1) rows.now) }
        ensures ordered { IfSome result IsOrdered }
    {
        match rows {
            [] => Some(None),
            [row] => ordered(self.read(tables, row.1)?),
            _ => None,
        }
    }

    // A row, where its weekdays and days are readable.
    fn read(&self, tables: &Tables, row: usize) -> Option<Week>
        ensures { result ≡ week_in tables.now self.now row }
    {
        let record = tables.record(File::Calendar, row);
        let days = self.days.read(&record)?;
        let start = read_date(record.value(self.start)).ok()?;
        let end = read_date(record.value(self.end)).ok()?;
        Some(Week { days, start, end })
    }
}

// A calendar row that does not end before it starts.
fn ordered(week: Week) -> Option<Option<Week>>
    ensures value { result ≡ if_ordered week }
    ensures ordered { IfSome result IsOrdered }
{
    if week.start.number() <= week.end.number() {
        Some(Some(week))
    } else {
        None
    }
}
