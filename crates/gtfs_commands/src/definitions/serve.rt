//! `gtfs serve`, as `clap` is told of it.
ghost use Rattle.std.specs.Prelude.{◌≡◌, IfOk};
ghost use Rattle.clap.specs.Words.{app_of};
ghost use Rattle.gtfs_commands.specs.CommandLine.{serve_app};

use super::rules::{DIR, INTERPOLATE, ZONE, new_command, with_flag, with_option, with_word};
use crate::fault::OutOfMemory;
use clap::Command;
use std::alloc::Global;

const ABOUT: &str = "Answer requests from the standard input, line by line";

const SERVE: &str = "gtfs serve DIR --zone FILE [--interpolate]";

const TEXTS: &str = "A request is a line of fields, with one tab between two of them:\n  \
    board, stop_id, from, until, limit, key\n  \
    timetable, route_id, date, direction\n\
    Limit, key and direction may be left out or empty. Behind the name of its command a request has\n\
    what gtfs board takes as --stop, --from, --until, --limit and --after, or gtfs timetable as\n\
    --route, --date and --direction.\n\n\
    The input is UTF-8. Its lines end with LF or CRLF, and an empty line is passed over.\n\n\
    The feed and the zone are read and checked once. Then each request is answered before the next\n\
    line is read, until the input ends: by what its command prints, or by a line that says why there\n\
    is nothing, as !! unknown stop. An empty line ends each answer.";

pub(super) fn serve_command<'w>(alloc: Global) -> Result<Command<'w>, OutOfMemory>
    ensures { IfOk result (λ c. app_of c ≡ serve_app) }
{
    let serve = new_command(alloc, "serve", ABOUT, SERVE, TEXTS);
    let dir = with_word(Ok(serve), alloc, "DIR", DIR);
    let zone = with_option(dir, alloc, "zone", "FILE", ZONE);
    with_flag(zone, alloc, "interpolate", INTERPOLATE)
}
