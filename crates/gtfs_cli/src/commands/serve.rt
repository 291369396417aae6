ghost use Rattle.std.specs.Prelude.{◌≡◌};
ghost use Rattle.gtfs_commands.specs.Words.{serve_texts_of};
ghost use Rattle.gtfs_rows.specs.RowsInMemory.{content_of_parts};
ghost use Rattle.gtfs_cli.specs.CommandPlan.{answer_of, Ends};
ghost use Rattle.gtfs_cli.specs.DevicesSeen.{Talk};
ghost use Rattle.gtfs_cli.specs.ServeCommand.{serve_plan, Converses};

mod answers;
mod questions;

use crate::commands::feed::read_feed;
use crate::commands::options::read_times;
use crate::commands::refusal::Refusal;
use crate::commands::serve::answers::Answers;
use crate::commands::zone_file::read_zone;
use crate::devices_seen::{DevicesSeen, InputSeen, OutSeen};
use gtfs_board::{Feed, StopIndex, Times};
use gtfs_commands::ServeTexts;
use gtfs_conversation::{ConversationFault, Input, converse};
use gtfs_days::Zone;
use gtfs_table::{Folders, Out};
use std::alloc::Global;
use std::hash::RandomState;

// Answers the lines of the input, each before the next is asked for. The feed and the zone are read
// once.
// Errors: In the order in which they are judged: `NotThere`, `Unreadable`, `OverLimit` and
// `HasErrors` of the feed's folder; the first three and `NoZone` of the zone file. `OutOfMemory`
// before a line is asked for. Then `InputFailed` and `OutputFailed`.
pub(crate) fn serve<'w, F: Folders, I: Input<O>, O: Out>(
    alloc: Global,
    random: RandomState,
    words: &ServeTexts<'w>,
    folders: &mut F,
    input: &mut I,
    out: &mut O,
) -> Result<(), Refusal<'w>>
    ensures { let talk : Talk = record {
      told = O.told out.old;
      before = ⟦<I as InputSeen<O>>⟧.seen input.old;
      after = ⟦<I as InputSeen<O>>⟧.seen input.new;
    } in
        Ends (serve_plan (F.limit folders.old) (F.held folders.old) talk (serve_texts_of words.now))
        (⟦<(F, O) as DevicesSeen>⟧.seen (folders.old, out.old))
        (⟦<(F, O) as DevicesSeen>⟧.seen (folders.new, out.new)) (answer_of result) }
{
    let feed = read_feed(alloc, random, folders, words.dir)?;
    let zone = read_zone(alloc, folders, words.zone)?;
    answer_lines(
        alloc,
        &feed,
        &zone,
        read_times(words.interpolate),
        input,
        out,
    )
}

// Answers the lines of the input, of a feed in a zone.
fn answer_lines<'w, I: Input<O>, O: Out>(
    alloc: Global,
    feed: &Feed,
    zone: &Zone,
    times: Times,
    input: &mut I,
    out: &mut O,
) -> Result<(), Refusal<'w>>
    ensures { let talk : Talk = record {
      told = O.told out.old;
      before = ⟦<I as InputSeen<O>>⟧.seen input.old;
      after = ⟦<I as InputSeen<O>>⟧.seen input.new;
    } in
        Converses (content_of_parts feed.now) zone.now times talk
        (⟦<O as OutSeen>⟧.seen out.old) (⟦<O as OutSeen>⟧.seen out.new) result }
{
    let index = StopIndex::build(alloc, feed, times)?;
    let answers = Answers {
        alloc,
        index: &index,
        zone,
    };
    match converse(input, out, &answers) {
        Ok(()) => Ok(()),
        Err(ConversationFault::Input) => Err(Refusal::InputFailed),
        Err(ConversationFault::Output) => Err(Refusal::OutputFailed),
    }
}
