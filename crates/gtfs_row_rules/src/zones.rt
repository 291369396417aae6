ghost use Rattle.std.specs.Prelude.{◌≡◌, ℕ, not, bytes_eq, codes, option_map};
ghost use Rattle.gtfs_schema.specs.Columns.{id};
ghost use Rattle.gtfs_schema.specs.PresenceRules.{first_zone, has_other_zone};
ghost use Rattle.gtfs_schema.specs.ReadFields.{word_of};
ghost use Rattle.gtfs_schema.specs.FieldValues.{if_both};
ghost use Rattle.gtfs_table.specs.Rows.{records_in};
ghost use Rattle.gtfs_table.specs.Tables.{column_of, field_under, record_at};

use crate::rule::Rule;
use gtfs_schema::values;
use gtfs_table::{File, Record, Tables};

// The zone of an agency is another than that of the first agency with a readable one.
#[derive(Drop)]
pub(crate) struct HasOtherZone<'a> {
    zone: Option<usize>,
    first: Option<&'a str>,
}

impl Rule for HasOtherZone<'_> {
    ghost breaks = { λ s n r. if_both (word_of id (field_under r s.zone))
        (option_map (λ t. t.now) s.first) (λ zone first. not (bytes_eq zone first)) };

    fn breaks(&mut self, row: usize, record: &Record<'_>) -> bool {
        match (values::id(record.value(self.zone)), self.first) {
            (Some(zone), Some(first)) => zone != first,
            _ => false,
        }
    }
}

pub(crate) fn has_other_zone<'a>(tables: &'a Tables) -> HasOtherZone<'a>
    ensures { (n : ℕ) → ⟦<HasOtherZone<'a> as Rule>⟧.breaks result n
        (record_at (records_in tables.now File.Agency) n)
        ≡ has_other_zone tables.now n }
{
    let zone = tables.column(File::Agency, "agency_timezone");
    let first = first_zone(tables, zone);
    HasOtherZone { zone, first }
}

// The zone of the first agency that has a readable one.
fn first_zone(tables: &Tables, zone: Option<usize>) -> Option<&str>
    requires { zone ≡ column_of (records_in tables.now File.Agency) (codes "agency_timezone") }
    ensures { option_map (λ t. t.now) result ≡ first_zone tables.now }
{
    for (_, record) in tables.rows(File::Agency) {
        let zone = values::id(record.value(zone));
        if zone.is_some() {
            return zone;
        }
    }
    None
}
