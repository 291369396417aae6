ghost use Rattle.std.specs.Prelude.{◌≡◌, ◌∷◌, [], OnOk};
ghost use Rattle.gtfs_schema.specs.Columns.{id};
ghost use Rattle.gtfs_schema.specs.ReadFields.{word_of};
ghost use Rattle.gtfs_schema.specs.declared.code.Code.TheVariants as code;
ghost use Rattle.gtfs_schema.specs.steps.FoundProblems.{Reports};
ghost use Rattle.gtfs_schema.specs.steps.Ids.{ids_of};
ghost use Rattle.gtfs_schema.specs.steps.KeptColumns.{of_codes};
ghost use Rattle.gtfs_trip_rules.specs.TripCounts.{are_few};
ghost use Rattle.gtfs_trip_rules.specs.TripNotes.{trip_notes_in};
ghost use Rattle.gtfs_schema.specs.FieldValues.{if_there};

use crate::trips::notes::TripNotes;
use crate::trips::row_counts::RowCounts;
use gtfs_field::OutOfMemory;
use gtfs_schema::{Code, FileName, Found, Problem, values};
use gtfs_table::{File, Tables};

/// Reports each row of `trips.txt` whose trip has fewer than two rows in `stop_times.txt` (W06).
/// The notes are those of these tables.
///
/// # Errors
/// `OutOfMemory` where the problems that were found cannot grow.
pub fn report_counts<'a>(
    tables: &'a Tables,
    notes: &TripNotes<'_>,
    found: &mut Found<'a>,
) -> Result<(), OutOfMemory>
    requires { notes.now.notes ≡ trip_notes_in tables.now }
    ensures { OnOk result (Reports tables.now (of_codes (code.W06 ∷ [])) found.old found.new) }
{
    let trip_id = tables.column(File::Trips, "trip_id");
    let mut counts = notes.counts();
    for (row, record) in tables.rows(File::Trips) {
        let problem = Problem {
            file: FileName::Kept(File::Trips),
            row,
            code: Code::W06,
            column: "trip_id",
        };
        found.report_if(problem, has_few_rows(&mut counts, record.value(trip_id)))?;
    }
    Ok(())
}

// Whether a text is the id of a trip that fewer than two rows of stop_times.txt name.
fn has_few_rows(counts: &mut RowCounts<'_, '_>, text: &str) -> bool
    ensures few { result ≡ if_there (word_of id text.now)
        (are_few (ids_of counts.old.trips.ids.now) counts.old.numbers.now counts.old.counts.now) }
    ensures trips { counts.new.trips.ids.now ≡ counts.old.trips.ids.now }
    ensures numbers { counts.new.numbers.now ≡ counts.old.numbers.now }
    ensures counts { counts.new.counts.now ≡ counts.old.counts.now }
{
    match values::id(text) {
        Some(trip_id) => counts.are_few(trip_id),
        None => false,
    }
}
