//! `gtfs check`: what is wrong with a feed and, where nothing is an error, advice on it.
ghost use Rattle.std.specs.Prelude.{◌≡◌, ◌≤◌, ◌≢◌, ◌&&◌, ◌∷◌, [], not, true, false, if◌then◌else◌, map, count_by, length, nat_lt, option_map, None, Some, IfOk, IfErr};
ghost use Rattle.gtfs_schema.specs.Codes.{is_error};
ghost use Rattle.gtfs_schema.specs.Problems.{passes, IsReport};
ghost use Rattle.gtfs_schema.specs.ProblemTexts.{problem_of};
ghost use Rattle.gtfs_rows.specs.ContentRead.{content_of};
ghost use Rattle.gtfs_rows.specs.RowsInMemory.{content_of_parts};
ghost use Rattle.gtfs_commands.specs.Words.{check_texts_of};
ghost use Rattle.gtfs_cli.specs.AdviceLines.{advised_text};
ghost use Rattle.gtfs_cli.specs.CheckLines.{counts_text, problem_lines};
ghost use Rattle.gtfs_cli.specs.CheckOptions.{judged_check, lacks_advise, IsLack, IsUnread};
ghost use Rattle.gtfs_cli.specs.CheckCommand.{check_plan};
ghost use Rattle.gtfs_cli.specs.RefusalOrder.{IsFirstBad};
ghost use Rattle.gtfs_cli.specs.RestOfCheck.{lines_after, IsBegun};
ghost use Rattle.gtfs_cli.specs.SharedOptions.{day_if_given};
ghost use Rattle.gtfs_cli.specs.CommandPlan.{Ends};
ghost use Rattle.gtfs_cli.specs.SentText.{AreSent};

mod kind_counts;
mod printed_advice;
mod printed_problems;

use crate::commands::check::printed_advice::print_advice;
use crate::commands::check::printed_problems::print_lines;
use crate::commands::folder::read_tables;
use crate::commands::options::read_day_if_given;
use crate::commands::refusal::Refusal;
use crate::commands::send::send;
use crate::devices_seen::{DevicesSeen, OutSeen};
use crate::report::{push_advised, push_counts};
use gtfs_commands::CheckTexts;
use gtfs_feed::FeedDraft;
use gtfs_field::{Day, OutOfMemory};
use gtfs_rules::{Problem, Report, check};
use gtfs_table::{Folders, Out, Tables};
use std::alloc::Global;
use std::hash::RandomState;

// Prints the report of the feed in a folder: a line for each of its problems, or for each kind of
// them, then the advice that is asked for, if no problem is an error, and the counts. Answers
// whether one of the problems is an error.
// Errors: In the order in which they are judged: `DayWithoutAdvice`, `BadValue`; `NotThere`,
// `Unreadable` and `OverLimit` of the folder; `OutputFailed` at any line. `OutOfMemory` at any
// point.
pub(crate) fn print_report<'w, F: Folders, O: Out>(
    alloc: Global,
    random: RandomState,
    words: &CheckTexts<'w>,
    folders: &mut F,
    out: &mut O,
) -> Result<bool, Refusal<'w>>
    ensures { Ends (check_plan (F.limit folders.old) (F.held folders.old) (check_texts_of words.now))
        (⟦<(F, O) as DevicesSeen>⟧.seen (folders.old, out.old))
        (⟦<(F, O) as DevicesSeen>⟧.seen (folders.new, out.new)) result }
{
    let day = read_day(words)?;
    let tables = read_tables(alloc, folders, words.dir, Vec::new(alloc))?;
    let report = check(alloc, &tables)?;
    let begun = print_begun(alloc, random, words, &tables, report, out)?;
    drop(tables);
    print_rest(alloc, random, words, day, begun, out)
}

// The day that is given, if there is one. It is taken with advice alone.
// Errors: `DayWithoutAdvice`, and then `BadValue`.
fn read_day<'w>(words: &CheckTexts<'w>) -> Result<Option<Day>, Refusal<'w>>
    ensures wanted { IfOk result (λ _. lacks_advise (check_texts_of words.now) ≡ false) }
    ensures read { IfOk result (λ day. day_if_given (option_map (λ t. t.now) words.now.day)
        ≡ Some day) }
    ensures refused { IfErr result (IsUnread (check_texts_of words.now)) }
{
    if words.day.is_some() && !words.advise {
        return Err(Refusal::DayWithoutAdvice);
    }
    match read_day_if_given(words.day) {
        Some(day) => Ok(day),
        None => Err(Refusal::BadValue("--day")),
    }
}

// What is left of a check once the lines of its problems went out.
#[derive(Drop)]
struct Begun {
    // A text that was used for lines.
    line: String,
    errors: usize,
    warnings: usize,
    // The feed, if it gets advice.
    draft: Option<FeedDraft>,
}

// Prints the lines of a report's problems.
fn print_begun<'w, O: Out>(
    alloc: Global,
    random: RandomState,
    words: &CheckTexts<'w>,
    tables: &Tables,
    report: Report<'_>,
    out: &mut O,
) -> Result<Begun, Refusal<'w>>
    requires dataset { report.dataset ≡ tables.now }
    requires report { IsReport tables.now report.problems }
    ensures sent { AreSent (problem_lines (check_texts_of words.now) tables.now report.entry.problems)
        (⟦<O as OutSeen>⟧.seen out.old) (⟦<O as OutSeen>⟧.seen out.new) result }
    ensures begun { IfOk result (IsBegun (check_texts_of words.now) tables.now report.entry.problems) }
{
    let problems = report.problems();
    let mut line = String::new(alloc);
    print_lines(alloc, &mut line, words, tables, problems, out)?;
    let errors = errors_among(problems);
    let warnings = problems.len() - errors;
    let draft = draft_if_advised(alloc, random, words.advise, report)?;
    Ok(Begun {
        line,
        errors,
        warnings,
        draft,
    })
}

// The feed of tables that passed, if it gets advice.
fn draft_if_advised(
    alloc: Global,
    random: RandomState,
    advise: bool,
    report: Report<'_>,
) -> Result<Option<FeedDraft>, OutOfMemory>
    requires { IsReport report.dataset report.problems }
    ensures { IfOk result (λ draft. option_map content_of_parts draft
        ≡ (if advise && passes report.entry.problems then Some (content_of report.entry.dataset) else None)) }
{
    if !advise {
        return Ok(None);
    }
    let Ok(passed) = report.passed() else {
        return Ok(None);
    };
    Ok(Some(FeedDraft::new(alloc, random, passed)?))
}

// Prints the advice, if there is to be some, and the counts.
// Answers whether one of the problems is an error.
fn print_rest<'w, O: Out>(
    alloc: Global,
    random: RandomState,
    words: &CheckTexts<'w>,
    day: Option<Day>,
    begun: Begun,
    out: &mut O,
) -> Result<bool, Refusal<'w>>
    ensures sent { AreSent (lines_after words.now.summary day begun)
        (⟦<O as OutSeen>⟧.seen out.old) (⟦<O as OutSeen>⟧.seen out.new) result }
    ensures answer { IfOk result (λ failed. failed ≡ nat_lt 0 begun.errors) }
{
    let Begun {
        mut line,
        errors,
        warnings,
        draft,
    } = begun;
    let Some(draft) = draft else {
        print_counts(&mut line, errors, warnings, out)?;
        return Ok(errors > 0);
    };
    let feed = draft.into_feed(alloc, random)?;
    let count = print_advice(alloc, &mut line, words.summary, &feed, day, out)?;
    print_advised(&mut line, errors, warnings, count, out)?;
    Ok(errors > 0)
}

// Sends the line of the counts out, in the same way.
fn print_counts<'w, O: Out>(
    line: &mut String,
    errors: usize,
    warnings: usize,
    out: &mut O,
) -> Result<(), Refusal<'w>>
    ensures { AreSent (counts_text errors warnings ∷ []) (⟦<O as OutSeen>⟧.seen out.old)
        (⟦<O as OutSeen>⟧.seen out.new) result }
{
    line.clear();
    push_counts(line, errors, warnings)?;
    send(line.as_bytes(), out)
}

// Sends the line of the counts out with that of advice, in the same way.
fn print_advised<'w, O: Out>(
    line: &mut String,
    errors: usize,
    warnings: usize,
    advice: usize,
    out: &mut O,
) -> Result<(), Refusal<'w>>
    ensures { AreSent (advised_text errors warnings advice ∷ []) (⟦<O as OutSeen>⟧.seen out.old)
        (⟦<O as OutSeen>⟧.seen out.new) result }
{
    line.clear();
    push_advised(line, errors, warnings, advice)?;
    send(line.as_bytes(), out)
}

// How many of the problems are errors.
fn errors_among(problems: &[Problem<'_>]) -> usize
    ensures value { result ≡ count_by (λ p. is_error p.code) (map problem_of problems.now) }
    ensures within { result ≤ length problems.now }
{
    problems
        .iter()
        .filter(|problem| problem.code.is_error())
        .count()
}
