//! The command line as `clap` is told of it. A command is a module here, and a line in `gtfs`.
ghost use Rattle.std.specs.Prelude.{◌≡◌, IfOk, true};
ghost use Rattle.clap.specs.Words.{App, app_of, with_subcommand};
ghost use Rattle.gtfs_commands.specs.CommandLine.{gtfs_app, gtfs_top};

mod board;
mod boards;
mod check;
mod merge;
mod rules;
mod serve;
mod timetable;

use crate::fault::OutOfMemory;
use board::board_command;
use boards::boards_command;
use check::check_command;
use clap::Command;
use merge::merge_command;
use rules::described;
use serve::serve_command;
use std::alloc::Global;
use timetable::timetable_command;

// The version of the program.
const VERSION: &str = "1.1.0";

const ABOUT: &str =
    "Checks of GTFS Schedule feeds, departure boards and timetables from them, and one feed of two";

// How all are called, a line each. Help has `Usage:
// ` before the first, and the others stand below it.
const COMMANDS: &str = "gtfs check DIR [--values] [--summary] [--advise] [--day D]\n       \
    gtfs board DIR --zone FILE --stop ID --from T --until T [--limit N] [--after KEY] [--interpolate]\n       \
    gtfs boards DIR --zone FILE --requests FILE [--interpolate]\n       \
    gtfs serve DIR --zone FILE [--interpolate]\n       \
    gtfs timetable DIR --route ID --date D [--direction 0|1] [--interpolate]\n       \
    gtfs merge A B OUT [--near N] [--cutoff D]";

// The program `gtfs` with all its commands. `--help` and `-h` ask for help, at the top and at each
// command; `--version` and `-V` ask for the version, at the top alone. There is no command `help`.
pub(super) fn gtfs<'w>(alloc: Global) -> Result<Command<'w>, OutOfMemory>
    ensures { IfOk result (λ c. app_of c ≡ gtfs_app) }
{
    let checks = with_command(top(alloc), check_command(alloc))?;
    let single = with_command(checks, board_command(alloc))?;
    let boards = with_command(single, boards_command(alloc))?;
    let serving = with_command(boards, serve_command(alloc))?;
    let timetables = with_command(serving, timetable_command(alloc))?;
    with_command(timetables, merge_command(alloc))
}

fn top<'w>(alloc: Global) -> Command<'w>
    ensures { app_of result ≡ gtfs_top }
{
    described(alloc, "gtfs", ABOUT, COMMANDS)
        .version(VERSION)
        .subcommand_required(true)
        .disable_help_subcommand(true)
}

// The program with one more command, if there was memory for that.
fn with_command<'w>(
    program: Command<'w>,
    command: Result<Command<'w>, OutOfMemory>,
) -> Result<Command<'w>, OutOfMemory>
    ensures { (added : App) → IfOk command.entry (λ c. app_of c ≡ added) → added.top.is_plain ≡ true
        → IfOk result (λ c. app_of c ≡ with_subcommand (app_of program.entry) added.top) }
{
    program.subcommand(command?)
}
