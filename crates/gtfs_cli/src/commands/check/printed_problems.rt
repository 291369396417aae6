//! The lines of problems, which a check prints.
ghost use Rattle.std.specs.Prelude.{◌≡◌, ◌∷◌, [], None, map, option_map};
ghost use Rattle.gtfs_schema.specs.ProblemTexts.{problem_of};
ghost use Rattle.gtfs_commands.specs.Words.{check_texts_of};
ghost use Rattle.gtfs_cli.specs.CheckLines.{is_alike, line_with, problem_lines, problem_value, shown_line, wanted_value};
ghost use Rattle.gtfs_cli.specs.FirstOfEachKind.{firsts, if_counted};
ghost use Rattle.gtfs_cli.specs.SentText.{AreSent};

use crate::commands::check::kind_counts::KindCounts;
use crate::commands::refusal::Refusal;
use crate::commands::send::send;
use crate::devices_seen::OutSeen;
use crate::report::push_line;
use gtfs_commands::CheckTexts;
use gtfs_rules::Problem;
use gtfs_schema::FileName;
use gtfs_table::{Out, Tables};
use std::alloc::Global;

// Prints the lines of problems, or of their kinds.
pub(crate) fn print_lines<'w, O: Out>(
    alloc: Global,
    line: &mut String,
    words: &CheckTexts<'w>,
    tables: &Tables,
    problems: &[Problem<'_>],
    out: &mut O,
) -> Result<(), Refusal<'w>>
    ensures { AreSent (problem_lines (check_texts_of words.now) tables.now
        (map problem_of problems.now)) (⟦<O as OutSeen>⟧.seen out.old)
        (⟦<O as OutSeen>⟧.seen out.new) result }
{
    if words.summary {
        print_kinds(alloc, line, words.values, tables, problems, out)
    } else {
        print_each(line, words.values, tables, problems, out)
    }
}

// Prints a line for each problem.
fn print_each<'w, O: Out>(
    line: &mut String,
    values: bool,
    tables: &Tables,
    problems: &[Problem<'_>],
    out: &mut O,
) -> Result<(), Refusal<'w>>
    ensures { AreSent (map (λ p. shown_line values tables.now p None) (map problem_of problems.now))
        (⟦<O as OutSeen>⟧.seen out.old) (⟦<O as OutSeen>⟧.seen out.new) result }
{
    for problem in problems {
        print_shown(line, values, tables, problem, None, out)?;
    }
    Ok(())
}

// Prints a line for the first problem of each kind, with how many there are of it.
fn print_kinds<'w, O: Out>(
    alloc: Global,
    line: &mut String,
    values: bool,
    tables: &Tables,
    problems: &[Problem<'_>],
    out: &mut O,
) -> Result<(), Refusal<'w>>
    ensures { AreSent (firsts is_alike (shown_line values tables.now) (map problem_of problems.now))
        (⟦<O as OutSeen>⟧.seen out.old) (⟦<O as OutSeen>⟧.seen out.new) result }
{
    let mut counts = KindCounts::of(alloc, problems)?;
    for problem in problems {
        let count = counts.take(problem);
        print_kind(line, values, tables, problem, count, out)?;
    }
    Ok(())
}

// Prints the line of a kind of problems at its first one, of which the number is given.
fn print_kind<'w, O: Out>(
    line: &mut String,
    values: bool,
    tables: &Tables,
    problem: &Problem<'_>,
    count: Option<usize>,
    out: &mut O,
) -> Result<(), Refusal<'w>>
    ensures { AreSent (if_counted (shown_line values tables.now (problem_of problem.now)) count ∷ [])
        (⟦<O as OutSeen>⟧.seen out.old) (⟦<O as OutSeen>⟧.seen out.new) result }
{
    if count.is_none() {
        return Ok(());
    }
    print_shown(line, values, tables, problem, count, out)
}

// Prints the line of a problem, with its value if values are shown.
fn print_shown<'w, O: Out>(
    line: &mut String,
    values: bool,
    tables: &Tables,
    problem: &Problem<'_>,
    count: Option<usize>,
    out: &mut O,
) -> Result<(), Refusal<'w>>
    ensures { AreSent (shown_line values tables.now (problem_of problem.now) count ∷ [])
        (⟦<O as OutSeen>⟧.seen out.old) (⟦<O as OutSeen>⟧.seen out.new) result }
{
    let value = shown_value(values, tables, problem);
    print_line(line, problem, value, count, out)
}

// Sends the line of a problem out. It is made in a text that was used before.
fn print_line<'w, O: Out>(
    line: &mut String,
    problem: &Problem<'_>,
    value: Option<&str>,
    count: Option<usize>,
    out: &mut O,
) -> Result<(), Refusal<'w>>
    ensures { AreSent (line_with (problem_of problem.now) (option_map (λ v. v.now) value.entry) count ∷ [])
        (⟦<O as OutSeen>⟧.seen out.old) (⟦<O as OutSeen>⟧.seen out.new) result }
{
    line.clear();
    push_line(line, problem, value, count)?;
    send(line.as_bytes(), out)
}

// The value of a problem, if values are shown.
fn shown_value<'t>(values: bool, tables: &'t Tables, problem: &Problem<'_>) -> Option<&'t str>
    ensures { option_map (λ v. v.now) result
        ≡ wanted_value values tables.now (problem_of problem.now) }
{
    if values {
        Some(value_of(tables, problem))
    } else {
        None
    }
}

// The value of a problem's column in its row. The header and a file as a whole have none.
fn value_of<'t>(tables: &'t Tables, problem: &Problem<'_>) -> &'t str
    ensures { result.now ≡ problem_value tables.now (problem_of problem.now) }
{
    match problem.file {
        FileName::Kept(file) if problem.row > 1 => tables.value(file, problem.row, problem.column),
        FileName::Kept(_) | FileName::Other(_) => "",
    }
}
