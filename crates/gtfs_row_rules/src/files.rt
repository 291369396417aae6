ghost use Rattle.std.specs.Prelude.{◌≡◌, ◌==◌, ◌&&◌, [], ◌∷◌, length, not, OnOk};
ghost use Rattle.gtfs_schema.specs.declared.code.Code.TheVariants as code;
ghost use Rattle.gtfs_schema.specs.steps.FieldCodes.{in_file_of};
ghost use Rattle.gtfs_schema.specs.FileRules.{file_empty, file_missing, is_absent, is_needed, is_read, not_utf8};
ghost use Rattle.gtfs_schema.specs.steps.FoundProblems.{Reports};
ghost use Rattle.gtfs_schema.specs.steps.KeptColumns.{of_codes};
ghost use Rattle.gtfs_schema.specs.Problems.{kept};
ghost use Rattle.gtfs_table.specs.Rows.{rows};
ghost use Rattle.gtfs_schema.specs.ProblemTexts.{problem_of};

use gtfs_field::OutOfMemory;
use gtfs_schema::{Code, FileName, Found, Problem};
use gtfs_table::{File, State, Tables};

/// Reports files that are missing (E01), not UTF-8 (E02) or empty (E05),
/// and what else the folder holds (W03).
///
/// # Errors
/// `OutOfMemory` where the problems that were found cannot grow.
pub fn report_files<'a>(tables: &'a Tables, found: &mut Found<'a>) -> Result<(), OutOfMemory>
    ensures { OnOk result
        (Reports tables.now (of_codes (code.E01 ∷ code.E02 ∷ code.E05 ∷ code.W03 ∷ []))
        found.old found.new) }
{
    report_kept_files(tables, found)?;
    report_other_files(tables, found)
}

fn report_kept_files<'a>(tables: &'a Tables, found: &mut Found<'a>) -> Result<(), OutOfMemory>
    ensures { OnOk result
        (Reports tables.now (of_codes (code.E01 ∷ code.E02 ∷ code.E05 ∷ [])) found.old found.new) }
{
    for file in &File::ALL {
        report_file(tables, *file, found)?;
    }
    Ok(())
}

fn report_file<'a>(tables: &'a Tables, file: File, found: &mut Found<'a>) -> Result<(), OutOfMemory>
    ensures { OnOk result
        (Reports tables.now (in_file_of (code.E01 ∷ code.E02 ∷ code.E05 ∷ []) file)
        found.old found.new) }
{
    found.report_if(at_row(file, 0, Code::E01), is_missing(tables, file))?;
    found.report_if(at_row(file, 0, Code::E02), is_not_utf8(tables, file))?;
    found.report_if(at_row(file, 0, Code::E05), lacks_records(tables, file))?;
    found.report_if(at_row(file, 1, Code::E05), lacks_agencies(tables, file))
}

// A problem of no column.
fn at_row<'a>(file: File, row: usize, code: Code) -> Problem<'a>
    ensures { problem_of result ≡ record { file = kept file; row = row; code = code; column = [] } }
{
    Problem {
        file: FileName::Kept(file),
        row,
        code,
        column: "",
    }
}

fn is_missing(tables: &Tables, file: File) -> bool
    ensures { result ≡ file_missing tables.now file 0 [] }
{
    match file {
        File::Calendar => is_absent(tables, file) && is_absent(tables, File::CalendarDates),
        _ => is_needed(file) && is_absent(tables, file),
    }
}

// Whether a file counts as absent:
// one that a dataset need not have does where it holds no record, too.
fn is_absent(tables: &Tables, file: File) -> bool
    ensures { result ≡ is_absent tables.now file }
{
    match tables.state(file) {
        State::Absent => true,
        State::NotUtf8 => false,
        State::Read => !is_needed(file) && tables.records(file) == 0,
    }
}

fn is_not_utf8(tables: &Tables, file: File) -> bool
    ensures { result ≡ not_utf8 tables.now file 0 [] }
{
    matches!(tables.state(file), State::NotUtf8)
}

fn lacks_records(tables: &Tables, file: File) -> bool
    ensures { result ≡ file_empty tables.now file 0 [] }
{
    is_needed(file) && is_read(tables, file) && tables.records(file) == 0
}

// Whether this is agency.txt, and its header is all that it holds.
fn lacks_agencies(tables: &Tables, file: File) -> bool
    ensures { result ≡ file_empty tables.now file 1 [] }
{
    matches!(file, File::Agency)
        && is_read(tables, file)
        && tables.records(file) > 0
        && !has_row(tables, file)
}

fn is_read(tables: &Tables, file: File) -> bool
    ensures { result ≡ is_read tables.now file }
{
    matches!(tables.state(file), State::Read)
}

// Whether a dataset has to have the file.
fn is_needed(file: File) -> bool
    ensures { result ≡ is_needed file }
{
    match file {
        File::Agency | File::Stops | File::Routes | File::Trips | File::StopTimes => true,
        File::Calendar | File::CalendarDates | File::Frequencies | File::Transfers => false,
    }
}

fn has_row(tables: &Tables, file: File) -> bool
    ensures { result ≡ not (length (rows tables.now file) == 0) }
{
    tables.rows(file).next().is_some()
}

fn report_other_files<'a>(tables: &'a Tables, found: &mut Found<'a>) -> Result<(), OutOfMemory>
    ensures { OnOk result (Reports tables.now (of_codes (code.W03 ∷ [])) found.old found.new) }
{
    for name in tables.others() {
        let problem = Problem {
            file: FileName::Other(name.as_str()),
            row: 0,
            code: Code::W03,
            column: "",
        };
        found.report_if(problem, true)?;
    }
    Ok(())
}
