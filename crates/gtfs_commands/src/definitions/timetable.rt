//! `gtfs timetable`, as `clap` is told of it.
ghost use Rattle.std.specs.Prelude.{◌≡◌, IfOk};
ghost use Rattle.clap.specs.Words.{app_of};
ghost use Rattle.gtfs_commands.specs.CommandLine.{timetable_app};

use super::rules::{DIR, INTERPOLATE, new_command, with_choice, with_flag, with_option, with_word};
use crate::fault::OutOfMemory;
use clap::Command;
use std::alloc::Global;

const ABOUT: &str =
    "Print the runs of a route on a date, a sheet for each direction and list of stops";

const TIMETABLE: &str = "gtfs timetable DIR --route ID --date D [--direction 0|1] [--interpolate]";

const ROUTE: &str = "The route, by its route_id";

const DATE: &str = "The service date of the runs";

const DIRECTION: &str = "Only trips of this direction_id; all trips without it";

const TEXTS: &str =
    "D is a date YYYYMMDD, as 20240401. On a date without service nothing is printed.\n\n\
    The direction is 0 or 1, as --direction 1.";

pub(super) fn timetable_command<'w>(alloc: Global) -> Result<Command<'w>, OutOfMemory>
    ensures { IfOk result (λ c. app_of c ≡ timetable_app) }
{
    let timetable = new_command(alloc, "timetable", ABOUT, TIMETABLE, TEXTS);
    let dir = with_word(Ok(timetable), alloc, "DIR", DIR);
    let route = with_option(dir, alloc, "route", "ID", ROUTE);
    let date = with_option(route, alloc, "date", "D", DATE);
    let direction = with_choice(date, alloc, "direction", "0|1", DIRECTION);
    with_flag(direction, alloc, "interpolate", INTERPOLATE)
}
