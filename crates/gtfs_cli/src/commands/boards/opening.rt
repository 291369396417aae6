//! How the board of a request is opened.
ghost use Rattle.std.specs.Prelude.{◌≡◌, IfErr, IfOk};
ghost use Rattle.gtfs_rows.specs.RowsInMemory.{content_of_parts};
ghost use Rattle.gtfs_cli.specs.BoardsCommand.{IsBoardCause};
ghost use Rattle.gtfs_cli.specs.LentBoardRequests.{board_request_of, stop_request_of};
ghost use Rattle.gtfs_cli.specs.BoardCommand.{ListsBoard};
ghost use Rattle.gtfs_cli.specs.BoardOptions.{IsSound};

use crate::commands::boards::requests::StopRequest;
use crate::commands::refusal::Refusal;
use gtfs_board::{Board, BoardFault, Span, StopIndex};
use gtfs_days::Zone;
use std::alloc::Global;

// The board of a request, by an index of the feed.
// Errors: `UnknownStop`, and then `UntilBeforeFrom`. `OutOfMemory` where the stop is known.
pub(crate) fn open_request<'a, 'w>(
    alloc: Global,
    index: &StopIndex<'a>,
    zone: &'a Zone,
    request: &StopRequest<'_>,
) -> Result<Board<'a>, Refusal<'w>>
    requires times { request.now.values.times ≡ index.now.times }
    requires from { IsSound request.now.values.from }
    requires until { IsSound request.now.values.until }
    ensures board { IfOk result (λ board. ListsBoard (content_of_parts index.now.feed) zone.now
        request.now.texts.stop.now (board_request_of request.now.values) board.rest) }
    ensures zone { IfOk result (λ board. board.zone ≡ zone.now) }
    ensures refused { IfErr result (IsBoardCause (content_of_parts index.now.feed) zone.now
        (stop_request_of request.now)) }
{
    let stop = request.texts.stop;
    if index.feed().stop(stop).is_none() {
        return Err(Refusal::UnknownStop);
    }
    let values = &request.values;
    let span = Span {
        from: values.from.instant(alloc, zone)?,
        until: values.until.instant(alloc, zone)?,
    };
    match Board::open_indexed(alloc, index, zone, stop, span, values.after.as_ref()) {
        Ok(board) => Ok(board),
        Err(BoardFault::UnknownStop) => Err(Refusal::UnknownStop),
        Err(BoardFault::BadSpan) => Err(Refusal::UntilBeforeFrom),
        Err(BoardFault::OutOfMemory) => Err(Refusal::OutOfMemory),
    }
}
