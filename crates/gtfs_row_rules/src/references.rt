ghost use Rattle.std.specs.Prelude.{ℕ, codes};
ghost use Rattle.gtfs_schema.specs.steps.FeedIds.{AreIdsOf};
ghost use Rattle.gtfs_schema.specs.declared.code.Code.TheVariants as Code;
ghost use Rattle.gtfs_row_rules.specs.RowRules.{HoldsWhere};
ghost use Rattle.gtfs_table.specs.Rows.{records_in};
ghost use Rattle.gtfs_table.specs.Tables.{field_under, record_at};
ghost use Rattle.gtfs_schema.specs.RowConditions.{text_in};
ghost use Rattle.gtfs_schema.specs.steps.UnknownIds.{is_unknown, is_unknown_in_both};

use crate::rule::Rule;
use gtfs_schema::{FeedIds, Finder, Ids, values};
use gtfs_table::{File, Record, Tables};

// The id in a column names no row.
#[derive(Drop)]
pub(crate) struct UnknownId<'a> {
    column: Option<usize>,
    ids: Finder<'a>,
}

impl Rule for UnknownId<'_> {
    ghost breaks = { λ s n r. is_unknown s.ids.ids.now (field_under r s.column) };

    fn breaks(&mut self, row: usize, record: &Record<'_>) -> bool {
        let id = record.value(self.column);
        values::is_id(id) && self.ids.first_row(id).is_none()
    }
}

// The id in a column names no row of either file.
#[derive(Drop)]
pub(crate) struct UnknownService<'a> {
    column: Option<usize>,
    calendar: Finder<'a>,
    calendar_dates: Finder<'a>,
}

impl Rule for UnknownService<'_> {
    ghost breaks = { λ s n r. is_unknown_in_both s.calendar.ids.now s.calendar_dates.ids.now
        (field_under r s.column) };

    fn breaks(&mut self, row: usize, record: &Record<'_>) -> bool {
        let id = record.value(self.column);
        if !values::is_id(id) {
            return false;
        }
        if self.calendar.first_row(id).is_some() {
            return false;
        }
        self.calendar_dates.first_row(id).is_none()
    }
}

// The rule that a column of a file names rows with these ids.
pub(crate) fn unknown<'i, 'a>(
    tables: &Tables,
    file: File,
    column: &str,
    ids: &'i Ids<'a>,
) -> UnknownId<'i>
    requires { HoldsWhere Code.E10 tables.now file column.now
        (λ n. is_unknown ids.now (text_in tables.now file n column.now)) }
    ensures { HoldsWhere Code.E10 tables.now file column.now
        (λ n. ⟦<UnknownId<'i> as Rule>⟧.breaks result n
        (record_at (records_in tables.now file) n)) }
{
    UnknownId {
        column: tables.column(file, column),
        ids: Finder::new(ids),
    }
}

// The rule that a trip names a service, which stands in calendar.txt, in calendar_dates.txt or in
// both.
pub(crate) fn unknown_service<'i>(tables: &Tables, ids: &'i FeedIds<'_>) -> UnknownService<'i>
    requires { AreIdsOf tables.now ids.now }
    ensures { HoldsWhere Code.E10 tables.now File.Trips (codes "service_id")
        (λ n. ⟦<UnknownService<'i> as Rule>⟧.breaks result n
        (record_at (records_in tables.now File.Trips) n)) }
{
    UnknownService {
        column: tables.column(File::Trips, "service_id"),
        calendar: Finder::new(&ids.calendar),
        calendar_dates: Finder::new(&ids.calendar_dates),
    }
}
