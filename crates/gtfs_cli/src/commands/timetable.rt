ghost use Rattle.std.specs.Prelude.{◌≡◌, map, true, IfErr, IfOk, IsErrOf, OnOk};
ghost use Rattle.std.specs.Io.KnownBytes.{Keeps};
ghost use Rattle.std.specs.List.{flat_map};
ghost use Rattle.gtfs_rows.specs.RowsInMemory.{content_of_parts};
ghost use Rattle.gtfs_times.specs.Filling.{timed};
ghost use Rattle.gtfs_board.specs.LentSheets.{plain_sheet};
ghost use Rattle.gtfs_board.specs.Timetable.{is_route, sheet_text, sheets};
ghost use Rattle.gtfs_commands.specs.Words.{timetable_texts_of};
ghost use Rattle.gtfs_cli.specs.CommandPlan.{answer_of, Ends};
ghost use Rattle.gtfs_cli.specs.SentText.{AreFirst, Begins, IsSent, PrintsText, SendsSome};
ghost use Rattle.gtfs_cli.specs.TimetableCommand.{timetable_plan, timetable_request_of, AreFirstSheets, AreSheets, IsSheetsCause};
ghost use Rattle.gtfs_cli.specs.declared.commands.refusal.Refusal.TheVariants.{OutOfMemory as no_memory};

mod options;

use crate::commands::feed::read_feed;
use crate::commands::refusal::Refusal;
use crate::commands::send::send;
use crate::commands::timetable::options::read_timetable_values;
pub(crate) use crate::commands::timetable::options::{TimetableRequest, read_direction};
use crate::devices_seen::{DevicesSeen, OutSeen};
use gtfs_board::{Feed, Sheet, TableFault, push_sheet, timetable};
use gtfs_commands::TimetableTexts;
use gtfs_table::{Folders, Out};
use std::alloc::Global;
use std::hash::RandomState;

// Prints the timetable that the words ask for.
// Errors: In the order in which they are judged: `BadValue`; `NotThere`, `Unreadable`,
// `OverLimit` and `HasErrors` of the folder; `UnknownRoute`; `OutputFailed` at any
// sheet. `OutOfMemory` at any point.
pub(crate) fn print_timetable<'w, F: Folders, O: Out>(
    alloc: Global,
    random: RandomState,
    words: &TimetableTexts<'w>,
    folders: &mut F,
    out: &mut O,
) -> Result<(), Refusal<'w>>
    ensures { Ends (timetable_plan (F.limit folders.old) (F.held folders.old) (timetable_texts_of words.now))
        (⟦<(F, O) as DevicesSeen>⟧.seen (folders.old, out.old))
        (⟦<(F, O) as DevicesSeen>⟧.seen (folders.new, out.new)) (answer_of result) }
{
    let values = read_timetable_values(words)?;
    let feed = read_feed(alloc, random, folders, words.dir)?;
    print_sheets(alloc, &feed, words.route, &values, out)
}

// Prints the timetable of a route of a feed.
pub(crate) fn print_sheets<'w, O: Out>(
    alloc: Global,
    feed: &Feed,
    route: &str,
    values: &TimetableRequest,
    out: &mut O,
) -> Result<(), Refusal<'w>>
    ensures { let f = content_of_parts feed.now in let r = timetable_request_of values.now in PrintsText
        (AreSheets f route.now r) (Begins (AreSheets f route.now r))
        (AreFirstSheets f route.now r) (IsSheetsCause f route.now)
        (⟦<O as OutSeen>⟧.seen out.old) (⟦<O as OutSeen>⟧.seen out.new) result }
{
    let sheets = sheets_of(alloc, feed, route, values)?;
    send_sheets(alloc, sheets.as_slice(), out)
}

// The sheets of a route of a feed.
fn sheets_of<'a, 'w>(
    alloc: Global,
    feed: &'a Feed,
    route: &str,
    values: &TimetableRequest,
) -> Result<Vec<Sheet<'a>>, Refusal<'w>>
    ensures known { OnOk result (is_route (content_of_parts feed.now) route.now ≡ true) }
    ensures sheets { IfOk result (λ found. map plain_sheet found.items
        ≡ sheets (timed values.now.times (content_of_parts feed.now)) route.now
        values.now.direction values.now.day) }
    ensures refused { IfErr result (IsSheetsCause (content_of_parts feed.now) route.now) }
{
    match timetable(
        alloc,
        feed,
        route,
        values.direction,
        values.day,
        values.times,
    ) {
        Ok(sheets) => Ok(sheets),
        Err(TableFault::UnknownRoute) => Err(Refusal::UnknownRoute),
        Err(TableFault::OutOfMemory) => Err(Refusal::OutOfMemory),
    }
}

// Sends the text of each sheet out whole before that of the next is made.
fn send_sheets<'w, O: Out>(
    alloc: Global,
    sheets: &[Sheet<'_>],
    out: &mut O,
) -> Result<(), Refusal<'w>>
    ensures sent { IsSent (flat_map sheet_text (map plain_sheet sheets.now))
        (⟦<O as OutSeen>⟧.seen out.old) (⟦<O as OutSeen>⟧.seen out.new) result }
    ensures stopped { IsErrOf result no_memory → SendsSome (AreFirst sheet_text (map plain_sheet sheets.now))
        (⟦<O as OutSeen>⟧.seen out.old) (⟦<O as OutSeen>⟧.seen out.new) }
{
    let mut text = String::new(alloc);
    for sheet in sheets {
        send_sheet(alloc, &mut text, sheet, out)?;
    }
    Ok(())
}

// Sends the text of a sheet out. It is made in a text that was used before.
fn send_sheet<'w, O: Out>(
    alloc: Global,
    text: &mut String,
    sheet: &Sheet<'_>,
    out: &mut O,
) -> Result<(), Refusal<'w>>
    ensures sent { IsSent (sheet_text (plain_sheet sheet.now)) (⟦<O as OutSeen>⟧.seen out.old)
        (⟦<O as OutSeen>⟧.seen out.new) result }
    ensures nothing { IsErrOf result no_memory → Keeps (O.told out.old) (O.told out.new) }
{
    text.clear();
    push_sheet(alloc, text, sheet)?;
    send(text.as_bytes(), out)
}
