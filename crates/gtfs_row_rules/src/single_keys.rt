ghost use Rattle.gtfs_schema.specs.RowConditions.{text_in};
ghost use Rattle.gtfs_schema.specs.declared.code.Code.TheVariants as Code;
ghost use Rattle.gtfs_row_rules.specs.RowRules.{HoldsWhere};
ghost use Rattle.gtfs_row_rules.specs.SingleKeys.{is_repeated};
ghost use Rattle.gtfs_table.specs.Rows.{records_in};
ghost use Rattle.gtfs_table.specs.Tables.{field_under, record_at};

use crate::rule::Rule;
use gtfs_schema::{Finder, Ids, values};
use gtfs_table::{File, Record, Tables};

// An earlier row has the id of a row.
#[derive(Drop)]
pub(crate) struct RepeatedId<'a> {
    column: Option<usize>,
    ids: Finder<'a>,
}

impl Rule for RepeatedId<'_> {
    ghost breaks = { λ s n r. is_repeated s.ids.ids.now (field_under r s.column) n };

    fn breaks(&mut self, row: usize, record: &Record<'_>) -> bool {
        let id = record.value(self.column);
        if !values::is_id(id) {
            return false;
        }
        match self.ids.first_row(id) {
            Some(first) => first < row,
            None => false,
        }
    }
}

// The rule that no earlier row of a file has the id of a row.
pub(crate) fn repeated<'i>(
    tables: &Tables,
    file: File,
    column: &str,
    ids: &'i Ids<'_>,
) -> RepeatedId<'i>
    requires { HoldsWhere Code.E09 tables.now file column.now
        (λ n. is_repeated ids.now (text_in tables.now file n column.now) n) }
    ensures { HoldsWhere Code.E09 tables.now file column.now
        (λ n. ⟦<RepeatedId<'i> as Rule>⟧.breaks result n
        (record_at (records_in tables.now file) n)) }
{
    RepeatedId {
        column: tables.column(file, column),
        ids: Finder::new(ids),
    }
}
