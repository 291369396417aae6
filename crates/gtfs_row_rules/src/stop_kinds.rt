ghost use Rattle.std.specs.Prelude.{◌≡◌, ◌∷◌, [], not, ℕ, codes};
ghost use Rattle.gtfs_schema.specs.declared.code.Code.TheVariants as Code;
ghost use Rattle.gtfs_schema.specs.steps.Ids.{first_rows};
ghost use Rattle.gtfs_schema.specs.RowConditions.{text_in};
ghost use Rattle.gtfs_row_rules.specs.RowRules.{HoldsWhere};
ghost use Rattle.gtfs_row_rules.specs.StopKinds.{is_other_parent, named_type};
ghost use Rattle.gtfs_table.specs.Rows.{records_in};
ghost use Rattle.gtfs_table.specs.Tables.{record_at};
ghost use Rattle.gtfs_schema.specs.steps.StopTypes.{type_with, type_of, AreStopTypes};
ghost use Rattle.gtfs_schema.specs.FieldValues.{if_there, is_one_of};

use crate::rule::Rule;
use gtfs_schema::{Finder, Ids, is_one_of, type_of, values};
use gtfs_table::{File, Record, Tables};

// The stop that a column names, and the types of all stops by their rows.
#[derive(Drop)]
struct NamedStop<'a> {
    column: Option<usize>,
    stops: Finder<'a>,
    types: &'a [Option<i64>],
}

impl NamedStop<'_> {
    // The location type of the stop that a row names.
    fn location_type(&mut self, record: &Record<'_>) -> Option<i64>
        ensures answer { result ≡ named_type self.old «record».now }
        ensures same { named_type self.new ≡ named_type self.old }
    {
        let id = values::id(record.value(self.column))?;
        let stop = self.stops.first_row(id)?;
        type_of(self.types, stop)
    }
}

// The stop that a column names has none of the wanted types.
#[derive(Drop)]
pub(crate) struct NamesOther<'a> {
    stop: NamedStop<'a>,
    wanted: &'static [u32],
}

impl Rule for NamesOther<'_> {
    ghost breaks = { λ s n r.
        if_there (named_type s.stop r) (λ t. not (is_one_of s.wanted.now t)) };

    fn breaks(&mut self, row: usize, record: &Record<'_>) -> bool {
        match self.stop.location_type(record) {
            Some(location_type) => !is_one_of(self.wanted, location_type),
            None => false,
        }
    }
}

// The parent of a stop is not of the kind that stops of its type have.
#[derive(Drop)]
pub(crate) struct HasOtherParent<'a> {
    parent: NamedStop<'a>,
    types: &'a [Option<i64>],
}

impl Rule for HasOtherParent<'_> {
    ghost breaks = { λ s n r. if_there (type_of s.types.now n)
        (λ own. if_there (named_type s.parent r) (is_other_parent own)) };

    fn breaks(&mut self, row: usize, record: &Record<'_>) -> bool {
        match self.parent.location_type(record) {
            Some(parent) => is_other_kind(type_of(self.types, row), parent),
            None => false,
        }
    }
}

// Whether a row of this type has a parent of another kind than its own wants.
fn is_other_kind(own: Option<i64>, parent: i64) -> bool
    ensures { result ≡ if_there own (λ own. is_other_parent own parent) }
{
    match own {
        Some(own) => is_other_parent(own, parent),
        None => false,
    }
}

// The parent of a stop, an entrance and a node is a station,
// that of a boarding area is a stop or platform.
fn is_other_parent(own: i64, parent: i64) -> bool
    ensures { result ≡ is_other_parent own parent }
{
    (is_one_of(&[0, 2, 3], own) && !is_one_of(&[1], parent))
        || (is_one_of(&[4], own) && !is_one_of(&[0], parent))
}

// The rule that a column of transfers.txt names a stop or platform or a station.
pub(crate) fn names_other<'i>(
    tables: &Tables,
    column: &str,
    stops: &'i Ids<'_>,
    types: &'i [Option<i64>],
) -> NamesOther<'i>
    requires { HoldsWhere Code.E11 tables.now File.Transfers column.now
        (λ n. if_there
        (type_with types.now stops.now (text_in tables.now File.Transfers n column.now))
        (λ t. not (is_one_of (0 ∷ 1 ∷ []) t))) }
    ensures { HoldsWhere Code.E11 tables.now File.Transfers column.now
        (λ n. ⟦<NamesOther<'i> as Rule>⟧.breaks result n
        (record_at (records_in tables.now File.Transfers) n)) }
{
    let stop = NamedStop {
        column: tables.column(File::Transfers, column),
        stops: Finder::new(stops),
        types,
    };
    NamesOther {
        stop,
        wanted: &[0, 1],
    }
}

// The rule that the parent of a stop is of the kind that stops of its type have.
pub(crate) fn has_other_parent<'i>(
    tables: &Tables,
    stops: &'i Ids<'_>,
    types: &'i [Option<i64>],
) -> HasOtherParent<'i>
    requires ids { stops.now ≡ first_rows tables.now File.Stops (codes "stop_id") }
    requires types { AreStopTypes tables.now types.now }
    ensures { HoldsWhere Code.E11 tables.now File.Stops (codes "parent_station")
        (λ n. ⟦<HasOtherParent<'i> as Rule>⟧.breaks result n
        (record_at (records_in tables.now File.Stops) n)) }
{
    let parent = NamedStop {
        column: tables.column(File::Stops, "parent_station"),
        stops: Finder::new(stops),
        types,
    };
    HasOtherParent { parent, types }
}
