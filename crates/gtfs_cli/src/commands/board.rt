ghost use Rattle.std.specs.Prelude.{◌≡◌, IfErr, IfOk};
ghost use Rattle.gtfs_rows.specs.RowsInMemory.{content_of_parts};
ghost use Rattle.gtfs_board.specs.BoardPage.{IsCutShort, IsPage, IsStopped};
ghost use Rattle.gtfs_commands.specs.Words.{texts_of};
ghost use Rattle.gtfs_cli.specs.BoardCommand.{board_plan, IsOpeningCause, IsTextOf, ListsBoard, PrintsPage};
ghost use Rattle.gtfs_cli.specs.LentBoardRequests.{board_request_of, AreBoardValues};
ghost use Rattle.gtfs_cli.specs.CommandPlan.{answer_of, Ends};
ghost use Rattle.gtfs_cli.specs.SentText.{or_none, PrintsText};

mod options;

use crate::commands::board::options::read_board_values;
pub(crate) use crate::commands::board::options::{BoardRequest, RequestTexts, read_request_values};
use crate::commands::feed::read_feed;
use crate::commands::refusal::Refusal;
use crate::commands::zone_file::read_zone;
use crate::devices_seen::{DevicesSeen, OutSeen};
use gtfs_board::{Board, BoardFault, Feed, PageFault, Span, write_page};
use gtfs_commands::BoardTexts;
use gtfs_days::Zone;
use gtfs_table::{Folders, Out};
use std::alloc::Global;
use std::hash::RandomState;

// Prints the board that the words ask for.
// Errors: In the order in which they are judged: `BadValue`; `NotThere`, `Unreadable`, `OverLimit`
// and `HasErrors` of the feed's folder; the first three and `NoZone` of the zone file;
// `UnknownStop`; `UntilBeforeFrom`; `OutputFailed` at any line. `OutOfMemory` at any point.
pub(crate) fn print_board<'w, F: Folders, O: Out>(
    alloc: Global,
    random: RandomState,
    words: &BoardTexts<'w>,
    folders: &mut F,
    out: &mut O,
) -> Result<(), Refusal<'w>>
    ensures { Ends (board_plan (F.limit folders.old) (F.held folders.old) (texts_of words.now))
        (⟦<(F, O) as DevicesSeen>⟧.seen (folders.old, out.old))
        (⟦<(F, O) as DevicesSeen>⟧.seen (folders.new, out.new)) (answer_of result) }
{
    let values = read_board_values(words)?;
    let feed = read_feed(alloc, random, folders, words.dir)?;
    let zone = read_zone(alloc, folders, words.zone)?;
    print_lines(alloc, &feed, &zone, words, &values, out)
}

// Prints the board of a feed in a zone: a page of as many lines as are asked for, each sent out
// whole before the next is looked for.
fn print_lines<'w, O: Out>(
    alloc: Global,
    feed: &Feed,
    zone: &Zone,
    words: &BoardTexts<'w>,
    values: &BoardRequest<'w>,
    out: &mut O,
) -> Result<(), Refusal<'w>>
    requires { AreBoardValues (texts_of words.now) values.now }
    ensures { let f = content_of_parts feed.now in let r = board_request_of values.now in PrintsText
        (IsTextOf IsPage f zone.now words.now.stop.now r)
        (IsTextOf IsCutShort f zone.now words.now.stop.now r)
        (or_none (IsTextOf IsStopped f zone.now words.now.stop.now r))
        (IsOpeningCause f zone.now words.now.stop.now r)
        (⟦<O as OutSeen>⟧.seen out.old) (⟦<O as OutSeen>⟧.seen out.new) result }
{
    let mut board = open(alloc, feed, zone, words, values)?;
    print_page(alloc, &mut board, values.limit, out)
}

// Prints a page of a board: at most so many lines, each sent out whole before the next is looked
// for.
pub(crate) fn print_page<'w, O: Out>(
    alloc: Global,
    board: &mut Board<'_>,
    limit: u64,
    out: &mut O,
) -> Result<(), Refusal<'w>>
    ensures { PrintsPage board.old.zone board.old.rest limit
        (⟦<O as OutSeen>⟧.seen out.old) (⟦<O as OutSeen>⟧.seen out.new) result }
{
    match write_page(alloc, board, limit, out) {
        Ok(_) => Ok(()),
        Err(PageFault::Out(_)) => Err(Refusal::OutputFailed),
        Err(PageFault::OutOfMemory(_)) => Err(Refusal::OutOfMemory),
    }
}

// The board of the stop, over the span and after the key that are asked for.
fn open<'a, 'w>(
    alloc: Global,
    feed: &'a Feed,
    zone: &'a Zone,
    words: &BoardTexts<'w>,
    values: &BoardRequest<'w>,
) -> Result<Board<'a>, Refusal<'w>>
    requires { AreBoardValues (texts_of words.now) values.now }
    ensures board { IfOk result (λ board. ListsBoard (content_of_parts feed.now) zone.now
        words.now.stop.now (board_request_of values.now) board.rest) }
    ensures zone { IfOk result (λ board. board.zone ≡ zone.now) }
    ensures refused { IfErr result (IsOpeningCause
        (content_of_parts feed.now) zone.now words.now.stop.now
        (board_request_of values.now)) }
{
    let span = Span {
        from: values.from.instant(alloc, zone)?,
        until: values.until.instant(alloc, zone)?,
    };
    match Board::open(
        alloc,
        feed,
        zone,
        words.stop,
        span,
        values.after.as_ref(),
        values.times,
    ) {
        Ok(board) => Ok(board),
        Err(BoardFault::UnknownStop) => Err(Refusal::UnknownStop),
        Err(BoardFault::BadSpan) => Err(Refusal::UntilBeforeFrom),
        Err(BoardFault::OutOfMemory) => Err(Refusal::OutOfMemory),
    }
}
