ghost use Rattle.std.specs.Prelude.{◌≡◌, ◌++◌, ◌≤◌, ◌+◌, ◌-◌, ◌^◌, length, min, string_bytes, string_len, OnOk, OnErr};
ghost use Rattle.std.specs.String.{string_capacity};
ghost use Rattle.gtfs_rules.specs.Report.{column_shown, problem_line};
ghost use Rattle.gtfs_schema.specs.FieldValues.{plain};
ghost use Rattle.gtfs_schema.specs.ProblemTexts.{problem_of};
ghost use Rattle.gtfs_cli.specs.CheckLines.{names_len, without_end};

use crate::report::line_pieces::push_piece;
use gtfs_field::OutOfMemory;
use gtfs_rules::Problem;
use gtfs_schema::push_plain;
use itoa::Buffer;

// How many bytes of a line are neither a name nor a text of the code, at most: the row has 20, a
// dash for no column one, and one stands between two parts.
const LINE_ROOM: usize = 25;

// Appends the line of a problem, up to its end: `CODE FILE:ROW COLUMN TEXT`, with a dash for no
// column and a space for each control character of a name.
// Errors: `OutOfMemory` where the text cannot grow.
pub(super) fn push_problem(text: &mut String, problem: &Problem<'_>) -> Result<(), OutOfMemory>
    ensures { OnOk result (string_bytes text.new
        ≡ string_bytes text.old ++ without_end (problem_line (problem_of problem.now))) }
{
    text.reserve(room_for(problem))?;
    write_problem(text, problem);
    Ok(())
}

// How many bytes the line of a problem has, at most.
fn room_for(problem: &Problem<'_>) -> usize
    ensures { result ≡ min (25 + names_len (problem_of problem.now)) (2 ^ 64 - 1) }
{
    LINE_ROOM
        .saturating_add(problem.code.name().len())
        .saturating_add(problem.file.as_str().len())
        .saturating_add(problem.column.len())
        .saturating_add(problem.code.text().len())
}

// Appends the line of a problem, for which there is room.
fn write_problem(text: &mut String, problem: &Problem<'_>)
    requires { string_len text.old + (25 + names_len (problem_of problem.now))
        ≤ string_capacity text.old }
    ensures { string_bytes text.new
        ≡ string_bytes text.old ++ without_end (problem_line (problem_of problem.now)) }
{
    push_piece(text, problem.code.name(), " ");
    push_plain(text, problem.file.as_str());
    push_piece(text, ":", Buffer::new().format(problem.row));
    push_piece(text, "", " ");
    push_plain(text, shown_column(problem.column));
    push_piece(text, " ", problem.code.text());
}

// The name of a column, or a dash for none.
fn shown_column(name: &str) -> &str
    ensures shown { plain result.now ≡ column_shown name.now }
    ensures len { length result.now ≤ length name.now + 1 }
{
    if name.is_empty() { "-" } else { name }
}
