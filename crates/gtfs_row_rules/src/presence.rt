ghost use Rattle.std.specs.Prelude.{◌≡◌, ◌&&◌, ◌||◌, ℕ, is_some};
ghost use Rattle.gtfs_schema.specs.Columns.{id};
ghost use Rattle.gtfs_schema.specs.PresenceRules.{has_many_agencies, has_wrong_parent, is_choice, is_of_type, lacks_agency, lacks_name};
ghost use Rattle.gtfs_row_rules.specs.ChosenConditions.{is_chosen};
ghost use Rattle.gtfs_table.specs.Rows.{records_in, is_empty};
ghost use Rattle.gtfs_table.specs.Tables.{field_under, record_at};
ghost use Rattle.gtfs_schema.specs.RowConditions.{text_in};
ghost use Rattle.gtfs_schema.specs.FieldValues.{readable};

use crate::rule::Rule;
use gtfs_schema::values;
use gtfs_table::{File, Record, Tables};

// A value is empty beside a choice from low to high.
#[derive(Clone, Copy)]
pub(crate) struct LacksBeside {
    choice: Option<usize>,
    greatest: u32,
    low: u32,
    high: u32,
    value: Option<usize>,
}

impl Rule for LacksBeside {
    ghost breaks = { λ s n r. is_chosen s.greatest (field_under r s.choice) s.low s.high
        && is_empty (field_under r s.value) };

    fn breaks(&mut self, row: usize, record: &Record<'_>) -> bool {
        let (low, high) = (i64::from(self.low), i64::from(self.high));
        values::choice_or(&[(0, self.greatest)], "0", record.value(self.choice)).is_some_and(
            |choice| low <= choice && choice <= high,
        ) && record.value(self.value).is_empty()
    }
}

// A station has a parent, or a stop within a station has none.
#[derive(Clone, Copy)]
pub(crate) struct HasWrongParent {
    location_type: Option<usize>,
    parent: Option<usize>,
}

impl Rule for HasWrongParent {
    ghost breaks = { λ s n r. (is_chosen 4 (field_under r s.location_type) 1 1
        && is_some (readable id (field_under r s.parent)))
        || (is_chosen 4 (field_under r s.location_type) 2 4 && is_empty (field_under r s.parent)) };

    fn breaks(&mut self, row: usize, record: &Record<'_>) -> bool {
        let parent = record.value(self.parent);
        match values::choice_or(&[(0, 4)], "0", record.value(self.location_type)) {
            Some(1) => values::id(parent).is_some(),
            Some(2..=4) => parent.is_empty(),
            _ => false,
        }
    }
}

// A row names no agency where there are several.
#[derive(Clone, Copy)]
pub(crate) struct LacksAgency {
    has_many: bool,
    agency: Option<usize>,
}

impl Rule for LacksAgency {
    ghost breaks = { λ s n r. s.has_many && is_empty (field_under r s.agency) };

    fn breaks(&mut self, row: usize, record: &Record<'_>) -> bool {
        self.has_many && record.value(self.agency).is_empty()
    }
}

// A route has neither of its names.
#[derive(Clone, Copy)]
pub(crate) struct LacksName {
    short: Option<usize>,
    long: Option<usize>,
}

impl Rule for LacksName {
    ghost breaks = { λ s n r. is_empty (field_under r s.short) && is_empty (field_under r s.long) };

    fn breaks(&mut self, row: usize, record: &Record<'_>) -> bool {
        record.value(self.short).is_empty() && record.value(self.long).is_empty()
    }
}

// Whether agency.txt has more rows than one.
pub(crate) fn has_many_agencies(tables: &Tables) -> bool
    ensures { result ≡ has_many_agencies tables.now }
{
    let mut agencies = tables.rows(File::Agency);
    agencies.next().is_some() && agencies.next().is_some()
}

pub(crate) fn lacks_agency(tables: &Tables, file: File, has_many: bool) -> LacksAgency
    requires { has_many ≡ has_many_agencies tables.now }
    ensures { (n : ℕ) → ⟦<LacksAgency as Rule>⟧.breaks result n
        (record_at (records_in tables.now file) n)
        ≡ lacks_agency file tables.now n }
{
    LacksAgency {
        has_many,
        agency: tables.column(file, "agency_id"),
    }
}

// Stops, stations and entrances have a name and a position.
pub(crate) fn lacks_name_or_position(tables: &Tables, column: &str) -> LacksBeside
    ensures { (n : ℕ) → ⟦<LacksBeside as Rule>⟧.breaks result n
        (record_at (records_in tables.now File.Stops) n)
        ≡ (is_of_type 0 2 tables.now n && is_empty (text_in tables.now File.Stops n column.now)) }
{
    LacksBeside {
        choice: tables.column(File::Stops, "location_type"),
        greatest: 4,
        low: 0,
        high: 2,
        value: tables.column(File::Stops, column),
    }
}

// A transfer of these types has this end.
pub(crate) fn lacks_end(tables: &Tables, low: u32, high: u32, column: &str) -> LacksBeside
    ensures { (n : ℕ) → ⟦<LacksBeside as Rule>⟧.breaks result n
        (record_at (records_in tables.now File.Transfers) n)
        ≡ (is_choice low high File.Transfers "transfer_type" tables.now n
        && is_empty (text_in tables.now File.Transfers n column.now)) }
{
    LacksBeside {
        choice: tables.column(File::Transfers, "transfer_type"),
        greatest: 5,
        low,
        high,
        value: tables.column(File::Transfers, column),
    }
}

// A station has no parent, and what lies within one has one.
pub(crate) fn has_wrong_parent(tables: &Tables) -> HasWrongParent
    ensures { (n : ℕ) → ⟦<HasWrongParent as Rule>⟧.breaks result n
        (record_at (records_in tables.now File.Stops) n)
        ≡ has_wrong_parent tables.now n }
{
    HasWrongParent {
        location_type: tables.column(File::Stops, "location_type"),
        parent: tables.column(File::Stops, "parent_station"),
    }
}

// A route has a name, a short one or a long one.
pub(crate) fn lacks_name(tables: &Tables) -> LacksName
    ensures { (n : ℕ) → ⟦<LacksName as Rule>⟧.breaks result n
        (record_at (records_in tables.now File.Routes) n)
        ≡ lacks_name tables.now n }
{
    LacksName {
        short: tables.column(File::Routes, "route_short_name"),
        long: tables.column(File::Routes, "route_long_name"),
    }
}
