ghost use Rattle.std.specs.Prelude.{◌≡◌, ℕ, option_map};
ghost use Rattle.gtfs_table.specs.Rows.{records_in};
ghost use Rattle.gtfs_table.specs.Tables.{record_at};
ghost use Rattle.gtfs_table.specs.declared.file.File.TheVariants as file;
ghost use Rattle.gtfs_trip_rules.specs.FrequencyPeriods.{period_at, period_in};

use gtfs_schema::values;
use gtfs_table::{File, Record, Tables};

// The indices of the columns of frequencies.txt that say when a trip runs.
#[derive(Clone, Copy)]
pub(crate) struct FrequencyColumns {
    pub(crate) trip: Option<usize>,
    pub(crate) start: Option<usize>,
    pub(crate) end: Option<usize>,
}

impl FrequencyColumns {
    pub(crate) fn new(tables: &Tables) -> FrequencyColumns
        ensures { (n : ℕ) → period_at result (record_at (records_in tables.now file.Frequencies) n)
            ≡ period_in tables.now n }
    {
        FrequencyColumns {
            trip: tables.column(File::Frequencies, "trip_id"),
            start: tables.column(File::Frequencies, "start_time"),
            end: tables.column(File::Frequencies, "end_time"),
        }
    }

    // The trip, the start and the end of a row's period, where all are readable.
    pub(crate) fn period<'a>(&self, record: &Record<'a>) -> Option<(&'a str, u32, u32)>
        ensures { option_map (λ p. (p.0.now, p.1, p.2)) result ≡ period_at self.now «record».now }
    {
        let trip = values::id(record.value(self.trip))?;
        let start = values::seconds(record.value(self.start))?;
        let end = values::seconds(record.value(self.end))?;
        Some((trip, start, end))
    }
}
