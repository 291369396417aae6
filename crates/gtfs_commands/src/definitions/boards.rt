//! `gtfs boards`, as `clap` is told of it.
ghost use Rattle.std.specs.Prelude.{◌≡◌, IfOk};
ghost use Rattle.clap.specs.Words.{app_of};
ghost use Rattle.gtfs_commands.specs.CommandLine.{boards_app};

use super::rules::{DIR, INTERPOLATE, ZONE, new_command, with_flag, with_option, with_word};
use crate::fault::OutOfMemory;
use clap::Command;
use std::alloc::Global;

const ABOUT: &str = "Print a board for each line of a file, in the order of the lines";

const BOARDS: &str = "gtfs boards DIR --zone FILE --requests FILE [--interpolate]";

const REQUESTS: &str = "The file of the requests, one a line";

const TEXTS: &str =
    "A request is a line of three to five fields, with one tab between two of them:\n  \
    stop_id, from, until, limit, key\n\
    The last two may be left out or empty. The others are what gtfs board takes as --from, --until,\n\
    --limit and --after.\n\n\
    The file is UTF-8. Its lines end with LF or CRLF, the last one with or without, and an empty line\n\
    is passed over. It is a file of a folder: a pipe, as /dev/stdin may be one, cannot be read.\n\n\
    Each board stands below a line == stop_id from until, as == S1 20240401 20240402. All lines are\n\
    judged before the first board is printed, and of a refused one its number is told, as line 3.";

pub(super) fn boards_command<'w>(alloc: Global) -> Result<Command<'w>, OutOfMemory>
    ensures { IfOk result (λ c. app_of c ≡ boards_app) }
{
    let boards = new_command(alloc, "boards", ABOUT, BOARDS, TEXTS);
    let dir = with_word(Ok(boards), alloc, "DIR", DIR);
    let zone = with_option(dir, alloc, "zone", "FILE", ZONE);
    let requests = with_option(zone, alloc, "requests", "FILE", REQUESTS);
    with_flag(requests, alloc, "interpolate", INTERPOLATE)
}
