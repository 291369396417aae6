mod columns;
mod covered;
mod trip_numbers;

ghost use Rattle.std.specs.Prelude.{◌≡◌, [], ◌∷◌, ℕ, ◌||◌, Bool, List, IfOk, OnOk};
ghost use Rattle.gtfs_schema.specs.declared.code.Code.TheVariants as code;
ghost use Rattle.gtfs_schema.specs.steps.FoundProblems.{Reports};
ghost use Rattle.gtfs_trip_rules.specs.CoveredTrips.{AreOfTrips, covers_trip};
ghost use Rattle.gtfs_trip_rules.specs.FrequencyPeriods.{meets_one, period_at};
ghost use Rattle.gtfs_schema.specs.steps.KeptColumns.{of_codes};
ghost use Rattle.gtfs_schema.specs.FieldValues.{if_there};

use columns::FrequencyColumns;
use covered::Covered;
use gtfs_field::OutOfMemory;
use gtfs_schema::{Code, FileName, Found, Problem};
use gtfs_table::{File, Record, Tables};
use std::alloc::Global;
use trip_numbers::TripNumbers;

/// Reports each period of `frequencies.txt` that shares a second with an earlier one of its trip
/// (E19).
///
/// # Errors
/// `OutOfMemory` where the problems that were found cannot grow, or there is no room for the
/// seconds that the trips' periods cover.
pub fn report_overlaps<'a>(
    alloc: Global,
    tables: &'a Tables,
    found: &mut Found<'a>,
) -> Result<(), OutOfMemory>
    ensures { OnOk result (Reports tables.now (of_codes (code.E19 ∷ [])) found.old found.new) }
{
    let columns = FrequencyColumns::new(tables);
    let mut trips = TripNumbers::new(alloc);
    let mut covered = Covered::new(alloc);
    for (row, record) in tables.rows(File::Frequencies) {
        let problem = Problem {
            file: FileName::Kept(File::Frequencies),
            row,
            code: Code::E19,
            column: "start_time",
        };
        let meets = meets_earlier(&columns, &record, &mut trips, &mut covered)?;
        found.report_if(problem, meets)?;
    }
    Ok(())
}

// Whether the period of a row meets what the rows before it cover, which it then covers too.
fn meets_earlier<'a>(
    columns: &FrequencyColumns,
    record: &Record<'a>,
    trips: &mut TripNumbers<'a>,
    covered: &mut Covered,
) -> Result<bool, OutOfMemory>
    requires { AreOfTrips trips.old.numbers covered.old.spans }
    ensures answer { IfOk result (λ meets. meets
        ≡ if_there (period_at columns.now «record».now)
        (λ p. covers_trip trips.old.numbers covered.old.spans p.0 p.1 p.2)) }
    ensures grown { OnOk result ((trip : List ℕ) (start end : ℕ)
        → covers_trip trips.new.numbers covered.new.spans trip start end
        ≡ (covers_trip trips.old.numbers covered.old.spans trip start end
        || meets_one (period_at columns.now «record».now) trip start end)) }
    ensures of_trips { OnOk result (AreOfTrips trips.new.numbers covered.new.spans) }
{
    match columns.period(record) {
        Some((trip, start, end)) => covered.meet(trips.number(trip)?, start, end),
        None => Ok(false),
    }
}
