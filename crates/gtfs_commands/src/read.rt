//! From the words to the command.
ghost use Rattle.std.specs.Prelude.{◌≡◌, map, Some, option_map, true, IfOk, IfErr, IfSome, IsSome};
ghost use Rattle.clap.specs.Words.{first_of, found_of, rows_of, subcommand_of, subcommand_rows_of, takes};
ghost use Rattle.gtfs_commands.specs.AskedTexts.{boards_texts_of, check_texts_of, is_flagged, is_from_words, merge_texts_of, serve_texts_of, texts_of, timetable_texts_of, HasBoard, HasBoards, HasCheck, HasMerge, HasServe, HasTimetable, GivesBoard, GivesBoards, GivesCheck, IsCommandOf, GivesMerge, GivesServe, GivesTimetable, IsWhole};
ghost use Rattle.gtfs_commands.specs.CommandLine.{gtfs_app};
ghost use Rattle.gtfs_commands.specs.HelpAndRefusals.{no_memory, IsFaultOf};

use crate::command::{
    BoardTexts, BoardsTexts, CheckTexts, Command, MergeTexts, ServeTexts, TimetableTexts,
};
use crate::definitions::gtfs;
use crate::fault::{WordsFault, fault_of};
use clap::ArgMatches;
use clap::parser::ValueSource;
use std::alloc::Global;
use std::convert::AsStr;

/// Reads the words of the command line, of which the first is the program's name.
/// Errors: [`WordsFault::Help`] where the words ask for help before anything is wrong with them,
/// [`WordsFault::Version`] where they ask for the version so, [`WordsFault::Refused`] where
/// something is wrong first, [`WordsFault::OutOfMemory`] where memory ran out. Words that `clap`
/// takes only ever fail for want of memory.
pub fn read_words<'w, S: AsStr>(alloc: Global, words: &'w [S]) -> Result<Command<'w>, WordsFault>
    ensures read { IfOk result (IsCommandOf (subcommand_of gtfs_app (map S.text words.entry.now))) }
    ensures taken { IfOk result (λ _. takes gtfs_app (map S.text words.entry.now) ≡ true) }
    ensures fault { IfErr result (IsFaultOf (map S.text words.entry.now)) }
    ensures memory { takes gtfs_app (map S.text words.entry.now) ≡ true
        → IfErr result (λ fault. fault ≡ no_memory) }
{
    let definition = gtfs(alloc)?;
    match definition.try_get_matches_from(words) {
        Ok(matches) => Ok(command_of(&matches).unwrap()),
        Err(error) => Err(fault_of(alloc, &error)),
    }
}

// The command that was named, if all that it needs was given.
fn command_of<'w>(matches: &ArgMatches<'w>) -> Option<Command<'w>>
    ensures value { IfSome result (IsCommandOf (subcommand_rows_of matches.now)) }
    ensures given { IsWhole (subcommand_rows_of matches.now) → IsSome result }
{
    let (name, given) = matches.subcommand()?;
    command_named(name, given)
}

// The command of this name, if all that it needs was given.
fn command_named<'w>(name: &str, given: &ArgMatches<'w>) -> Option<Command<'w>>
    ensures value { IfSome result (IsCommandOf (Some (name.now, rows_of (found_of given.now)))) }
    ensures given { IsWhole (Some (name.now, rows_of (found_of given.now))) → IsSome result }
{
    match name {
        "check" => Some(Command::Check(check_words(given)?)),
        "board" => Some(Command::Board(board_words(given)?)),
        "boards" => Some(Command::Boards(boards_words(given)?)),
        "serve" => Some(Command::Serve(serve_words(given)?)),
        "timetable" => Some(Command::Timetable(timetable_words(given)?)),
        "merge" => Some(Command::Merge(merge_words(given)?)),
        _ => None,
    }
}

fn check_words<'w>(given: &ArgMatches<'w>) -> Option<CheckTexts<'w>>
    ensures value { IfSome result (λ words. GivesCheck (rows_of (found_of given.now))
        (check_texts_of words)) }
    ensures given { HasCheck (rows_of (found_of given.now)) → IsSome result }
{
    Some(CheckTexts {
        dir: given_text(given, "DIR")?,
        values: is_flagged(given, "values"),
        summary: is_flagged(given, "summary"),
        advise: is_flagged(given, "advise"),
        day: given_text(given, "day"),
    })
}

fn board_words<'w>(given: &ArgMatches<'w>) -> Option<BoardTexts<'w>>
    ensures value { IfSome result (λ words. GivesBoard (rows_of (found_of given.now))
        (texts_of words)) }
    ensures given { HasBoard (rows_of (found_of given.now)) → IsSome result }
{
    Some(BoardTexts {
        dir: given_text(given, "DIR")?,
        zone: given_text(given, "zone")?,
        stop: given_text(given, "stop")?,
        from: given_text(given, "from")?,
        until: given_text(given, "until")?,
        limit: given_text(given, "limit"),
        after: given_text(given, "after"),
        interpolate: is_flagged(given, "interpolate"),
    })
}

fn boards_words<'w>(given: &ArgMatches<'w>) -> Option<BoardsTexts<'w>>
    ensures value { IfSome result (λ words. GivesBoards (rows_of (found_of given.now))
        (boards_texts_of words)) }
    ensures given { HasBoards (rows_of (found_of given.now)) → IsSome result }
{
    Some(BoardsTexts {
        dir: given_text(given, "DIR")?,
        zone: given_text(given, "zone")?,
        requests: given_text(given, "requests")?,
        interpolate: is_flagged(given, "interpolate"),
    })
}

fn serve_words<'w>(given: &ArgMatches<'w>) -> Option<ServeTexts<'w>>
    ensures value { IfSome result (λ words. GivesServe (rows_of (found_of given.now))
        (serve_texts_of words)) }
    ensures given { HasServe (rows_of (found_of given.now)) → IsSome result }
{
    Some(ServeTexts {
        dir: given_text(given, "DIR")?,
        zone: given_text(given, "zone")?,
        interpolate: is_flagged(given, "interpolate"),
    })
}

fn timetable_words<'w>(given: &ArgMatches<'w>) -> Option<TimetableTexts<'w>>
    ensures value { IfSome result (λ words. GivesTimetable (rows_of (found_of given.now))
        (timetable_texts_of words)) }
    ensures given { HasTimetable (rows_of (found_of given.now)) → IsSome result }
{
    Some(TimetableTexts {
        dir: given_text(given, "DIR")?,
        route: given_text(given, "route")?,
        date: given_text(given, "date")?,
        direction: given_text(given, "direction"),
        interpolate: is_flagged(given, "interpolate"),
    })
}

fn merge_words<'w>(given: &ArgMatches<'w>) -> Option<MergeTexts<'w>>
    ensures value { IfSome result (λ words. GivesMerge (rows_of (found_of given.now))
        (merge_texts_of words)) }
    ensures given { HasMerge (rows_of (found_of given.now)) → IsSome result }
{
    Some(MergeTexts {
        a: given_text(given, "A")?,
        b: given_text(given, "B")?,
        out: given_text(given, "OUT")?,
        near: given_text(given, "near"),
        cutoff: given_text(given, "cutoff"),
    })
}

// The text that was given for an id.
fn given_text<'w>(given: &ArgMatches<'w>, id: &str) -> Option<&'w str>
    ensures { option_map (λ text. text.now) result
        ≡ first_of id.now (rows_of (found_of given.now)) }
{
    given.get_str(id)
}

// Whether a flag stands among the words.
fn is_flagged(given: &ArgMatches<'_>, id: &str) -> bool
    ensures { result ≡ is_flagged id.now (rows_of (found_of given.now)) }
{
    is_from_words(given.value_source(id))
}

// Whether what was found for an id was found among the words, and is no default.
fn is_from_words(source: Option<ValueSource>) -> bool
    ensures { result ≡ is_from_words source }
{
    match source {
        Some(ValueSource::CommandLine) => true,
        Some(ValueSource::DefaultValue) | None => false,
    }
}
