//! `gtfs check`, as `clap` is told of it.
ghost use Rattle.std.specs.Prelude.{◌≡◌, IfOk};
ghost use Rattle.clap.specs.Words.{app_of};
ghost use Rattle.gtfs_commands.specs.CommandLine.{check_app};

use super::rules::{DIR, new_command, with_choice, with_flag, with_word};
use crate::fault::OutOfMemory;
use clap::Command;
use std::alloc::Global;

const ABOUT: &str = "Print what is wrong with a feed";

const CHECK: &str = "gtfs check DIR [--values] [--summary] [--advise] [--day D]";

const LINES: &str =
    "A line for each problem, as E10 trips.txt:7 route_id and what it means, and last\n\
    errors N warnings N. The status is 1 where there is an error.\n\n\
    A line of advice has its code and file, what it is about and what it says, with tabs\n\
    between them, as A03 stops.txt, S3, no trip stops here. Advice changes no status.\n\n\
    D is a service day YYYYMMDD, as 20240401. It is taken with --advise alone.";

const VALUES: &str = "Each problem with the value that is wrong, in quotes";

const SUMMARY: &str =
    "Of problems with one code, file and column the first alone, with their number";

const ADVISE: &str = "Advice on a feed without errors: what is allowed, and yet most often a slip";

const DAY: &str = "Advise where fewer than seven days of service are left on D";

pub(super) fn check_command<'w>(alloc: Global) -> Result<Command<'w>, OutOfMemory>
    ensures { IfOk result (λ c. app_of c ≡ check_app) }
{
    let check = new_command(alloc, "check", ABOUT, CHECK, LINES);
    let dir = with_word(Ok(check), alloc, "DIR", DIR);
    let values = with_flag(dir, alloc, "values", VALUES);
    let summary = with_flag(values, alloc, "summary", SUMMARY);
    let advise = with_flag(summary, alloc, "advise", ADVISE);
    with_choice(advise, alloc, "day", "D", DAY)
}
