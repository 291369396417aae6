ghost use Rattle.std.specs.Prelude.{◌≡◌, ◌&&◌, [], ◌∷◌, bytes_eq, map, not, OnOk, Some};
ghost use Rattle.std.specs.List.{list_any};
ghost use Rattle.gtfs_schema.specs.declared.code.Code.TheVariants as code;
ghost use Rattle.gtfs_schema.specs.Columns.{column_named, columns_of};
ghost use Rattle.gtfs_schema.specs.ColumnRules.{column_missing};
ghost use Rattle.gtfs_schema.specs.steps.ColumnView.{column_of};
ghost use Rattle.gtfs_schema.specs.steps.FieldCodes.{in_file_of};
ghost use Rattle.gtfs_schema.specs.steps.FoundProblems.{Reports};
ghost use Rattle.gtfs_schema.specs.steps.KeptColumns.{of_codes};
ghost use Rattle.gtfs_schema.specs.Problems.{kept};
ghost use Rattle.gtfs_schema.specs.RowConditions.{times_named as times_in};
ghost use Rattle.gtfs_table.specs.Rows.{is_empty};
ghost use Rattle.gtfs_schema.specs.ProblemTexts.{problem_of};

use gtfs_field::OutOfMemory;
use gtfs_schema::{
    Code, Column, FileName, Found, Problem, agency_columns, calendar_columns,
    calendar_dates_columns, frequencies_columns, is_required, routes_columns, stop_times_columns,
    stops_columns, transfers_columns, trips_columns,
};
use gtfs_table::{File, Tables};

/// Reports what is wrong with the headers of the nine files: a required column that is missing
/// (E03), a kept column that is named more than once (E04), and a column that is not kept (W04).
///
/// # Errors
/// `OutOfMemory` where the problems that were found cannot grow.
pub fn report_headers<'a>(tables: &'a Tables, found: &mut Found<'a>) -> Result<(), OutOfMemory>
    ensures { OnOk result
        (Reports tables.now (of_codes (code.E03 ∷ code.E04 ∷ code.W04 ∷ [])) found.old found.new) }
{
    for file in &File::ALL {
        report_header(tables, *file, found)?;
    }
    Ok(())
}

fn report_header<'a>(
    tables: &'a Tables,
    file: File,
    found: &mut Found<'a>,
) -> Result<(), OutOfMemory>
    ensures { OnOk result
        (Reports tables.now (in_file_of (code.E03 ∷ code.E04 ∷ code.W04 ∷ []) file)
        found.old found.new) }
{
    match file {
        File::Agency => report_names(tables, file, &agency_columns(), found),
        File::Stops => report_names(tables, file, &stops_columns(), found),
        File::Routes => report_names(tables, file, &routes_columns(), found),
        File::Trips => report_names(tables, file, &trips_columns(), found),
        File::StopTimes => report_names(tables, file, &stop_times_columns(), found),
        File::Calendar => report_names(tables, file, &calendar_columns(), found),
        File::CalendarDates => report_names(tables, file, &calendar_dates_columns(), found),
        File::Frequencies => report_names(tables, file, &frequencies_columns(), found),
        File::Transfers => report_names(tables, file, &transfers_columns(), found),
    }
}

fn report_names<'a>(
    tables: &'a Tables,
    file: File,
    columns: &[Column],
    found: &mut Found<'a>,
) -> Result<(), OutOfMemory>
    requires { map column_of columns.now ≡ columns_of file }
    ensures { OnOk result
        (Reports tables.now (in_file_of (code.E03 ∷ code.E04 ∷ code.W04 ∷ []) file)
        found.old found.new) }
{
    report_kept_columns(tables, file, columns, found)?;
    report_other_columns(tables, file, columns, found)
}

fn report_kept_columns<'a>(
    tables: &'a Tables,
    file: File,
    columns: &[Column],
    found: &mut Found<'a>,
) -> Result<(), OutOfMemory>
    requires { map column_of columns.now ≡ columns_of file }
    ensures { OnOk result
        (Reports tables.now (in_file_of (code.E03 ∷ code.E04 ∷ []) file) found.old found.new) }
{
    for column in columns {
        report_kept_column(tables, file, column, found)?;
    }
    Ok(())
}

fn report_kept_column<'a>(
    tables: &'a Tables,
    file: File,
    column: &Column,
    found: &mut Found<'a>,
) -> Result<(), OutOfMemory>
    requires { column_named file column.now.name.now ≡ Some (column_of column.now) }
    ensures { OnOk result
        (Reports tables.now (λ p. in_file_of (code.E03 ∷ code.E04 ∷ []) file p
        && bytes_eq column.now.name.now p.column) found.old found.new) }
{
    let times = times_named(tables, file, column.name);
    let missing = is_missing(tables, file, column, times);
    found.report_if(in_header(file, Code::E03, column.name), missing)?;
    found.report_if(in_header(file, Code::E04, column.name), times > 1)
}

fn is_missing(tables: &Tables, file: File, column: &Column, times: usize) -> bool
    requires kept { column_named file column.now.name.now ≡ Some (column_of column.now) }
    requires counted { times ≡ times_in tables.now file column.now.name.now }
    ensures { result ≡ column_missing tables.now file 1 column.now.name.now }
{
    tables.records(file) > 0 && is_required(column) && times == 0
}

// How often the header of a file has the name.
fn times_named(tables: &Tables, file: File, name: &str) -> usize
    ensures { result ≡ times_in tables.now file name.now }
{
    let mut times = 0;
    for n in 0..tables.fields(file, 1) {
        if tables.field(file, 1, n) == name {
            times += 1;
        }
    }
    times
}

fn report_other_columns<'a>(
    tables: &'a Tables,
    file: File,
    columns: &[Column],
    found: &mut Found<'a>,
) -> Result<(), OutOfMemory>
    requires { map column_of columns.now ≡ columns_of file }
    ensures { OnOk result
        (Reports tables.now (in_file_of (code.W04 ∷ []) file) found.old found.new) }
{
    for n in 0..tables.fields(file, 1) {
        let name = tables.field(file, 1, n);
        found.report_if(in_header(file, Code::W04, name), is_other(columns, name))?;
    }
    Ok(())
}

// Whether the name is that of a column, and of no kept one.
fn is_other(columns: &[Column], name: &str) -> bool
    ensures { result ≡ (not (is_empty name.now)
        && not (list_any (λ column. bytes_eq column.name.now name.now) columns.now)) }
{
    !name.is_empty() && !is_kept(columns, name)
}

fn is_kept(columns: &[Column], name: &str) -> bool
    ensures { result ≡ list_any (λ column. bytes_eq column.name.now name.now) columns.now }
{
    columns.iter().any(|column| column.name == name)
}

// A problem of the header, at a column.
fn in_header<'a>(file: File, code: Code, column: &'a str) -> Problem<'a>
    ensures { problem_of result
        ≡ record { file = kept file; row = 1; code = code; column = column.now } }
{
    Problem {
        file: FileName::Kept(file),
        row: 1,
        code,
        column,
    }
}
