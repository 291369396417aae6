ghost use Rattle.std.specs.Prelude.{◌≡◌, ◌++◌, option_map, string_bytes, OnOk};
ghost use Rattle.gtfs_schema.specs.ProblemTexts.{problem_of};
ghost use Rattle.gtfs_cli.specs.CheckLines.{count_shown, line_with, values_shown};

use crate::report::problem_start::push_problem;
use crate::report::problem_value::push_value;
use gtfs_field::OutOfMemory;
use gtfs_rules::Problem;
use itoa::Buffer;

// Appends the line of a problem, with its value and with the number of its kind if these are shown.
// Errors: `OutOfMemory` where the text cannot grow.
pub(crate) fn push_line(
    text: &mut String,
    problem: &Problem<'_>,
    value: Option<&str>,
    count: Option<usize>,
) -> Result<(), OutOfMemory>
    ensures { OnOk result (string_bytes text.new ≡ string_bytes text.old
        ++ line_with (problem_of problem.now) (option_map (λ v. v.now) value.entry) count) }
{
    push_problem(text, problem)?;
    push_shown_value(text, value)?;
    push_shown_count(text, count)?;
    text.push_str("\n")
}

// Appends a value, if it is shown.
fn push_shown_value(text: &mut String, value: Option<&str>) -> Result<(), OutOfMemory>
    ensures { OnOk result (string_bytes text.new
        ≡ string_bytes text.old ++ values_shown (option_map (λ v. v.now) value.entry)) }
{
    match value {
        Some(value) => push_value(text, value),
        None => Ok(()),
    }
}

// Appends the number of a kind, if it is shown.
pub(super) fn push_shown_count(text: &mut String, count: Option<usize>) -> Result<(), OutOfMemory>
    ensures { OnOk result (string_bytes text.new ≡ string_bytes text.old ++ count_shown count) }
{
    match count {
        Some(count) => {
            text.push_str("\t")?;
            text.push_str(Buffer::new().format(count))
        }
        None => Ok(()),
    }
}
