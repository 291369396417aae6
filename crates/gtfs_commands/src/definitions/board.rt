//! `gtfs board`, as `clap` is told of it.
ghost use Rattle.std.specs.Prelude.{◌≡◌, IfOk};
ghost use Rattle.clap.specs.Words.{app_of};
ghost use Rattle.gtfs_commands.specs.CommandLine.{board_app, needed_board_app};

use super::rules::{
    DIR, INTERPOLATE, ZONE, new_command, with_choice, with_flag, with_option, with_word,
};
use crate::fault::OutOfMemory;
use clap::Command;
use std::alloc::Global;

const ABOUT: &str = "Print the departures at a stop, in the order of their times";

const BOARD: &str =
    "gtfs board DIR --zone FILE --stop ID --from T --until T [--limit N] [--after KEY] [--interpolate]";

const STOP: &str = "The stop, by its stop_id";

const FROM: &str = "The first instant of the board";

const UNTIL: &str = "The instant before which the board ends";

const LIMIT: &str = "Print at most N lines; all lines without it";

const AFTER: &str = "Begin after the departure of this key";

const TEXTS: &str = "T is an instant or a service date:\n  \
    @SECONDS  that many seconds after 1970-01-01T00:00:00Z, as @1711958400\n  \
    YYYYMMDD  where that service day begins in the time zone (noon less twelve hours), as 20240401\n\n\
    N is a whole number of digits, as 20.\n\n\
    KEY is the first field of a line of the board: @SECONDS of the departure, trip_id, start of\n\
    the run in seconds, stop_sequence and service date, as @1711958400/T1/28800/3/20240401.\n\
    The last key of one board opens the next.";

pub(super) fn board_command<'w>(alloc: Global) -> Result<Command<'w>, OutOfMemory>
    ensures { IfOk result (λ c. app_of c ≡ board_app) }
{
    let limit = with_choice(needed_board(alloc), alloc, "limit", "N", LIMIT);
    let after = with_choice(limit, alloc, "after", "KEY", AFTER);
    with_flag(after, alloc, "interpolate", INTERPOLATE)
}

// The command with the texts that it needs.
fn needed_board<'w>(alloc: Global) -> Result<Command<'w>, OutOfMemory>
    ensures { IfOk result (λ c. app_of c ≡ needed_board_app) }
{
    let board = new_command(alloc, "board", ABOUT, BOARD, TEXTS);
    let dir = with_word(Ok(board), alloc, "DIR", DIR);
    let zone = with_option(dir, alloc, "zone", "FILE", ZONE);
    let stop = with_option(zone, alloc, "stop", "ID", STOP);
    let from = with_option(stop, alloc, "from", "T", FROM);
    with_option(from, alloc, "until", "T", UNTIL)
}
