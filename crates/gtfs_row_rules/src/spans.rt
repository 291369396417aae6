ghost use Rattle.std.specs.Prelude.{◌≡◌, ℕ, int_le, int_lt};
ghost use Rattle.gtfs_schema.specs.Columns.{date, time};
ghost use Rattle.gtfs_schema.specs.ReadFields.{amount_of};
ghost use Rattle.gtfs_schema.specs.FieldValues.{if_both};
ghost use Rattle.gtfs_schema.specs.PeriodRules.{ends_at_start};
ghost use Rattle.gtfs_schema.specs.ServiceRules.{ends_before_start};
ghost use Rattle.gtfs_table.specs.Rows.{records_in};
ghost use Rattle.gtfs_table.specs.Tables.{field_under, record_at};

use crate::rule::Rule;
use gtfs_schema::values;
use gtfs_table::{File, Record, Tables};

// A row of calendar.txt ends before it starts.
#[derive(Clone, Copy)]
pub(crate) struct EndsBeforeStart {
    start: Option<usize>,
    end: Option<usize>,
}

impl Rule for EndsBeforeStart {
    ghost breaks = { λ s n r. if_both (amount_of date (field_under r s.end))
        (amount_of date (field_under r s.start)) int_lt };

    fn breaks(&mut self, row: usize, record: &Record<'_>) -> bool {
        let end = values::date(record.value(self.end));
        let start = values::date(record.value(self.start));
        end.zip(start).is_some_and(|(end, start)| end < start)
    }
}

// A row of frequencies.txt is a frequency, and its period the span of seconds from its start to its
// end. This one ends at its start or before.
#[derive(Clone, Copy)]
pub(crate) struct EndsAtStart {
    start: Option<usize>,
    end: Option<usize>,
}

impl Rule for EndsAtStart {
    ghost breaks = { λ s n r. if_both (amount_of time (field_under r s.end))
        (amount_of time (field_under r s.start)) int_le };

    fn breaks(&mut self, row: usize, record: &Record<'_>) -> bool {
        let end = values::time(record.value(self.end));
        let start = values::time(record.value(self.start));
        end.zip(start).is_some_and(|(end, start)| end <= start)
    }
}

pub(crate) fn ends_before_start(tables: &Tables) -> EndsBeforeStart
    ensures { (n : ℕ) → ⟦<EndsBeforeStart as Rule>⟧.breaks result n
        (record_at (records_in tables.now File.Calendar) n)
        ≡ ends_before_start tables.now n }
{
    EndsBeforeStart {
        start: tables.column(File::Calendar, "start_date"),
        end: tables.column(File::Calendar, "end_date"),
    }
}

pub(crate) fn ends_at_start(tables: &Tables) -> EndsAtStart
    ensures { (n : ℕ) → ⟦<EndsAtStart as Rule>⟧.breaks result n
        (record_at (records_in tables.now File.Frequencies) n)
        ≡ ends_at_start tables.now n }
{
    EndsAtStart {
        start: tables.column(File::Frequencies, "start_time"),
        end: tables.column(File::Frequencies, "end_time"),
    }
}
