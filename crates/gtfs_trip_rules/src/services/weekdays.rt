ghost use Rattle.std.specs.Prelude.{◌≡◌, ℕ};
ghost use Rattle.gtfs_table.specs.Rows.{records_in};
ghost use Rattle.gtfs_table.specs.Tables.{record_at};
ghost use Rattle.gtfs_table.specs.declared.file.File.TheVariants as file;
ghost use Rattle.gtfs_trip_rules.specs.ServiceRows.{weekdays_in};
ghost use Rattle.gtfs_trip_rules.specs.ServiceFields.{weekdays_at};
ghost use Rattle.gtfs_trip_rules.specs.ServiceCalendars.{weekday_of};

use gtfs_schema::read_choice;
use gtfs_table::{File, Record, Tables};

// The indices of the columns of calendar.txt that name a weekday.
#[derive(Clone, Copy)]
pub(crate) struct Weekdays {
    monday: Option<usize>,
    tuesday: Option<usize>,
    wednesday: Option<usize>,
    thursday: Option<usize>,
    friday: Option<usize>,
    saturday: Option<usize>,
    sunday: Option<usize>,
}

impl Weekdays {
    pub(crate) fn new(tables: &Tables) -> Weekdays
        ensures { (n : ℕ) → weekdays_at result (record_at (records_in tables.now file.Calendar) n)
            ≡ weekdays_in tables.now n }
    {
        Weekdays {
            monday: tables.column(File::Calendar, "monday"),
            tuesday: tables.column(File::Calendar, "tuesday"),
            wednesday: tables.column(File::Calendar, "wednesday"),
            thursday: tables.column(File::Calendar, "thursday"),
            friday: tables.column(File::Calendar, "friday"),
            saturday: tables.column(File::Calendar, "saturday"),
            sunday: tables.column(File::Calendar, "sunday"),
        }
    }

    // On which weekdays the service of a row runs, where each of its fields is readable.
    pub(crate) fn read(&self, record: &Record<'_>) -> Option<[bool; 7]>
        ensures { result ≡ weekdays_at self.now «record».now }
    {
        Some([
            weekday(record.value(self.monday))?,
            weekday(record.value(self.tuesday))?,
            weekday(record.value(self.wednesday))?,
            weekday(record.value(self.thursday))?,
            weekday(record.value(self.friday))?,
            weekday(record.value(self.saturday))?,
            weekday(record.value(self.sunday))?,
        ])
    }
}

// Whether a service runs on the weekday of this text.
fn weekday(text: &str) -> Option<bool>
    ensures { result ≡ weekday_of text.now }
{
    match read_choice(&[(0, 1)], text) {
        Ok(number) => Some(number == 1),
        Err(_) => None,
    }
}
