//! `gtfs merge`, as `clap` is told of it.
ghost use Rattle.std.specs.Prelude.{◌≡◌, IfOk};
ghost use Rattle.clap.specs.Words.{app_of};
ghost use Rattle.gtfs_commands.specs.CommandLine.{merge_app};

use super::rules::{new_command, with_choice, with_word};
use crate::fault::OutOfMemory;
use clap::Command;
use std::alloc::Global;

const ABOUT: &str = "Make one feed of two";

const MERGE: &str = "gtfs merge A B OUT [--near N] [--cutoff D]";

const FIRST: &str = "The folder of the feed whose ids stay";

const SECOND: &str = "The folder of the feed that is added";

const OUT: &str = "The folder that the merged feed is written into; it may be A or B";

const NEAR: &str =
    "Make a stop of B one with a stop of A that has its name and lies within N of it";

const CUTOFF: &str = "Take A's service days before D and B's from D on";

const TEXTS: &str =
    "Prints each id that was renamed: side, kind, old id and new id, as B stop S1 S1_merged_1, and\n\
    then for each kind how many ids were joined, as joined stop 12. With --near the last line says\n\
    how many stops of B are near one of A, as near stop 3.\n\n\
    N is a whole number of digits: millionths of a degree, in latitude and in longitude, as 500.\n\
    A millionth of a degree of latitude is 11 centimetres.\n\n\
    D is a service day YYYYMMDD, as 20240401.";

pub(super) fn merge_command<'w>(alloc: Global) -> Result<Command<'w>, OutOfMemory>
    ensures { IfOk result (λ c. app_of c ≡ merge_app) }
{
    let merge = new_command(alloc, "merge", ABOUT, MERGE, TEXTS);
    let first = with_word(Ok(merge), alloc, "A", FIRST);
    let second = with_word(first, alloc, "B", SECOND);
    let out = with_word(second, alloc, "OUT", OUT);
    let near = with_choice(out, alloc, "near", "N", NEAR);
    with_choice(near, alloc, "cutoff", "D", CUTOFF)
}
