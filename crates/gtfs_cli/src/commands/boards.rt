ghost use Rattle.std.specs.Prelude.{◌≡◌, map, None, string_bytes, IfOk};
ghost use Rattle.gtfs_days.specs.Zone.{zone_origin};
ghost use Rattle.gtfs_rows.specs.Content.{Content};
ghost use Rattle.gtfs_rows.specs.RowsInMemory.{content_of_parts};
ghost use Rattle.gtfs_commands.specs.Words.{boards_texts_of};
ghost use Rattle.gtfs_cli.specs.LentBoardRequests.{board_request_of, request_texts_of, stop_request_of};
ghost use Rattle.gtfs_cli.specs.BoardCommand.{ListsBoard};
ghost use Rattle.gtfs_cli.specs.BoardsCommand.{boards_plan, of_utf8, AreAllBoards, BeginsBoard, BeginsWhole, IsFileFault, IsOneText, IsRequestsFault, StopsInAll};
ghost use Rattle.gtfs_cli.specs.SharedOptions.{times_of};
ghost use Rattle.gtfs_cli.specs.CommandPlan.{answer_of, Ends};
ghost use Rattle.gtfs_cli.specs.BoardOptions.{IsSound};
ghost use Rattle.gtfs_cli.specs.BoardsRequests.{fault_in, request_heading, numbered_from, requests_in, requests_of};
ghost use Rattle.gtfs_cli.specs.SentText.{or_none, PrintsText};

mod opening;
mod request_fault;
mod request_lines;
mod requests;

use crate::commands::board::{RequestTexts, print_page};
pub(crate) use crate::commands::boards::opening::open_request;
pub(crate) use crate::commands::boards::request_fault::RequestFault;
use crate::commands::boards::request_lines::{lines_of, text_of};
use crate::commands::boards::requests::first_fault;
pub(crate) use crate::commands::boards::requests::{StopRequest, field, read_request, text_if_any};
use crate::commands::feed::read_feed;
use crate::commands::files::read_file;
use crate::commands::options::read_times;
use crate::commands::refusal::Refusal;
use crate::commands::zone_file::read_zone;
use crate::devices_seen::{DevicesSeen, OutSeen};
use gtfs_board::{Board, Feed, StopIndex, Times};
use gtfs_commands::BoardsTexts;
use gtfs_days::Zone;
use gtfs_field::OutOfMemory;
use gtfs_table::{Folders, Out, write_text};
use std::alloc::Global;
use std::hash::RandomState;

// Prints the boards that the file of requests of the words asks for.
// Errors: In the order in which they are judged: `NotThere`, `Unreadable`, `OverLimit` and
// `HasErrors` of the feed's folder; the first three and `NoZone` of the zone file; the first
// three of the file of requests; `Line` of the first line that is refused; `OutputFailed` at any
// board. `OutOfMemory` at any point.
pub(crate) fn print_boards<'w, F: Folders, O: Out>(
    alloc: Global,
    random: RandomState,
    words: &BoardsTexts<'w>,
    folders: &mut F,
    out: &mut O,
) -> Result<(), Refusal<'w>>
    ensures { Ends (boards_plan (F.limit folders.old) (F.held folders.old) (boards_texts_of words.now))
        (⟦<(F, O) as DevicesSeen>⟧.seen (folders.old, out.old))
        (⟦<(F, O) as DevicesSeen>⟧.seen (folders.new, out.new)) (answer_of result) }
{
    let feed = read_feed(alloc, random, folders, words.dir)?;
    let zone = read_zone(alloc, folders, words.zone)?;
    let bytes = read_file(alloc, folders, words.requests)?;
    print_file(alloc, &feed, &zone, bytes.as_slice(), words, out)
}

// Prints the boards that the bytes of the file of requests ask for.
fn print_file<'w, O: Out>(
    alloc: Global,
    feed: &Feed,
    zone: &Zone,
    bytes: &[u8],
    words: &BoardsTexts<'w>,
    out: &mut O,
) -> Result<(), Refusal<'w>>
    ensures { let f = content_of_parts feed.now in let asked = requests_of f
        (zone_origin zone.now) (times_of words.now.interpolate) bytes.now in PrintsText
        (of_utf8 bytes.now (AreAllBoards f zone.now asked))
        (of_utf8 bytes.now (StopsInAll BeginsBoard f zone.now asked))
        (or_none (of_utf8 bytes.now (StopsInAll BeginsWhole f zone.now asked)))
        (IsFileFault words.now.requests.now bytes.now asked)
        (⟦<O as OutSeen>⟧.seen out.old) (⟦<O as OutSeen>⟧.seen out.new) result }
{
    let Some(text) = text_of(bytes) else {
        return Err(Refusal::Unreadable(words.requests));
    };
    let lines = lines_of(alloc, text)?;
    print_lines(
        alloc,
        feed,
        zone,
        lines.as_slice(),
        read_times(words.interpolate),
        out,
    )
}

// Prints the boards that lines ask for. All are judged before anything goes out.
fn print_lines<'w, O: Out>(
    alloc: Global,
    feed: &Feed,
    zone: &Zone,
    lines: &[&str],
    times: Times,
    out: &mut O,
) -> Result<(), Refusal<'w>>
    ensures { let f = content_of_parts feed.now in let asked = requests_in f
        (zone_origin zone.now) times (numbered_from 1 (map (λ l. l.now) lines.now)) in PrintsText
        (AreAllBoards f zone.now asked) (StopsInAll BeginsBoard f zone.now asked)
        (or_none (StopsInAll BeginsWhole f zone.now asked)) (IsRequestsFault asked)
        (⟦<O as OutSeen>⟧.seen out.old) (⟦<O as OutSeen>⟧.seen out.new) result }
{
    if let Some(fault) = first_fault(alloc, feed, zone, lines, times)? {
        return Err(Refusal::Line(fault));
    }
    let index = StopIndex::build(alloc, feed, times)?;
    print_requests(alloc, &index, zone, lines, times, out)
}

// Prints the board of each line that is not empty, from an index of the feed. All were judged.
fn print_requests<'w, O: Out>(
    alloc: Global,
    index: &StopIndex<'_>,
    zone: &Zone,
    lines: &[&str],
    times: Times,
    out: &mut O,
) -> Result<(), Refusal<'w>>
    requires indexed { times ≡ index.now.times }
    requires known { fault_in (requests_in
        (content_of_parts index.now.feed) (zone_origin zone.now) times
        (numbered_from 1 (map (λ l. l.now) lines.now))) ≡ None }
    ensures { let f = content_of_parts index.now.feed in let asked = requests_in f
        (zone_origin zone.now) times (numbered_from 1 (map (λ l. l.now) lines.now)) in PrintsText
        (AreAllBoards f zone.now asked) (StopsInAll BeginsBoard f zone.now asked)
        (or_none (StopsInAll BeginsWhole f zone.now asked)) (λ _. ⊥)
        (⟦<O as OutSeen>⟧.seen out.old) (⟦<O as OutSeen>⟧.seen out.new) result }
{
    for line in lines {
        let Some(request) = read_request(line, times) else {
            continue;
        };
        print_request(alloc, index, zone, &request, out)?;
    }
    Ok(())
}

// Prints the heading and the board of a request.
fn print_request<'w, O: Out>(
    alloc: Global,
    index: &StopIndex<'_>,
    zone: &Zone,
    request: &StopRequest<'_>,
    out: &mut O,
) -> Result<(), Refusal<'w>>
    requires times { request.now.values.times ≡ index.now.times }
    requires from { IsSound request.now.values.from }
    requires until { IsSound request.now.values.until }
    ensures { let f = content_of_parts index.now.feed in let q = stop_request_of request.now in
        PrintsText (IsOneText f zone.now q) (BeginsBoard f zone.now q) (BeginsWhole f zone.now q) (λ _. ⊥)
        (⟦<O as OutSeen>⟧.seen out.old) (⟦<O as OutSeen>⟧.seen out.new) result }
{
    let mut board = open_judged(alloc, index, zone, request)?;
    print_opened(alloc, &mut board, request, out)
}

// The board of a request, whose line was judged, so that memory alone can be refused.
fn open_judged<'a>(
    alloc: Global,
    index: &StopIndex<'a>,
    zone: &'a Zone,
    request: &StopRequest<'_>,
) -> Result<Board<'a>, OutOfMemory>
    requires times { request.now.values.times ≡ index.now.times }
    requires from { IsSound request.now.values.from }
    requires until { IsSound request.now.values.until }
    ensures board { IfOk result (λ board. ListsBoard (content_of_parts index.now.feed) zone.now
        request.now.texts.stop.now (board_request_of request.now.values) board.rest) }
    ensures zone { IfOk result (λ board. board.zone ≡ zone.now) }
{
    match open_request(alloc, index, zone, request) {
        Ok(board) => Ok(board),
        Err(_) => Err(OutOfMemory),
    }
}

// Prints the heading of a request, and below it a page of its board.
fn print_opened<'w, O: Out>(
    alloc: Global,
    board: &mut Board<'_>,
    request: &StopRequest<'_>,
    out: &mut O,
) -> Result<(), Refusal<'w>>
    ensures { (f : Content) → let q = stop_request_of request.now in let z = board.old.zone in
        ListsBoard f z q.texts.stop q.values board.old.rest
        → PrintsText (IsOneText f z q) (BeginsBoard f z q) (BeginsWhole f z q) (λ _. ⊥)
        (⟦<O as OutSeen>⟧.seen out.old) (⟦<O as OutSeen>⟧.seen out.new) result }
{
    let heading = heading(alloc, &request.texts)?;
    write_text(out, heading.as_bytes())?;
    print_page(alloc, board, request.values.limit, out)
}

// The line above a board.
fn heading(alloc: Global, texts: &RequestTexts<'_>) -> Result<String, OutOfMemory>
    ensures { IfOk result
        (λ text. string_bytes text ≡ request_heading (request_texts_of texts.now)) }
{
    let mut text = String::new(alloc);
    text.push_str("== ")?;
    text.push_str(texts.stop)?;
    text.push_str(" ")?;
    text.push_str(texts.from)?;
    text.push_str(" ")?;
    text.push_str(texts.until)?;
    text.push_str("\n")?;
    Ok(text)
}
