ghost use Rattle.std.specs.Prelude.{◌≡◌, codes, IfOk};
ghost use Rattle.gtfs_table.specs.Rows.{records_in};
ghost use Rattle.gtfs_table.specs.Tables.{column_of};
ghost use Rattle.gtfs_table.specs.declared.file.File.TheVariants as file;
ghost use Rattle.gtfs_schema.specs.RowConditions.{choice_in};
ghost use Rattle.gtfs_schema.specs.steps.StopTypes.{type_in_text, type_of, AreStopTypes};
ghost use Rattle.gtfs_schema.specs.FieldValues.{is_one_of};

use crate::values;
use gtfs_field::OutOfMemory;
use gtfs_table::{File, Tables};
use std::alloc::Global;

/// The location type of each record of stops.txt by its row, where it is readable; an empty one is
/// 0 (GTFS Schedule Reference, `location_type` of stops.txt).
///
/// # Errors
/// `OutOfMemory` where the list cannot grow.
pub fn stop_types(alloc: Global, tables: &Tables) -> Result<Vec<Option<i64>>, OutOfMemory>
    ensures { IfOk result (λ types. AreStopTypes tables.now types.items) }
{
    let index = tables.column(File::Stops, "location_type");
    let mut types = Vec::new(alloc);
    types.push(type_at(tables, index, 0))?;
    for n in 0..tables.records(File::Stops) {
        types.push(type_at(tables, index, n + 1))?;
    }
    Ok(types)
}

// The location type of a record of stops.txt, under the column of this index.
fn type_at(tables: &Tables, index: Option<usize>, row: usize) -> Option<i64>
    requires { index ≡ column_of (records_in tables.now file.Stops) (codes "location_type") }
    ensures { result ≡ choice_in tables.now file.Stops row "location_type" }
{
    read_type(tables.record(File::Stops, row).value(index))
}

/// The location type of a row of stops.txt in such a list:
/// 0, that of an empty text, where there is no such row.
pub fn type_of(types: &[Option<i64>], row: usize) -> Option<i64>
    ensures { result ≡ type_of types.now row }
{
    match types.get(row) {
        Some(location_type) => *location_type,
        None => read_type(""),
    }
}

// A location type, an empty text taken by its meaning.
fn read_type(text: &str) -> Option<i64>
    ensures { result ≡ type_in_text text.now }
{
    values::choice_or(&[(0, 4)], "0", text)
}

/// Whether a number is one of these.
pub fn is_one_of(wanted: &[u32], number: i64) -> bool
    ensures { result ≡ is_one_of wanted.now number }
{
    wanted.iter().any(|one| number == i64::from(*one))
}
