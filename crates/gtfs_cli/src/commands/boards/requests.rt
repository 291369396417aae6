ghost use Rattle.std.specs.Prelude.{◌≡◌, map, IfOk, IfSome, int_lt, option_map, slice_get};
ghost use Rattle.std.specs.Option.{option_and_then};
ghost use Rattle.gtfs_days.specs.Zone.{zone_origin};
ghost use Rattle.gtfs_rows.specs.RowsInMemory.{content_of_parts};
ghost use Rattle.gtfs_cli.specs.LentBoardRequests.{request_texts_of, stop_request_of};
ghost use Rattle.gtfs_cli.specs.BoardOptions.{IsSound, instant_at};
ghost use Rattle.gtfs_cli.specs.BoardsRequests.{fault_in, fields_of, judged, numbered_from, request_texts, requests_in, stop_request, text_if_any};

use crate::commands::board::{BoardRequest, RequestTexts, read_request_values};
use crate::commands::boards::request_fault::RequestFault;
use gtfs_board::{Feed, Times};
use gtfs_days::Zone;
use gtfs_field::OutOfMemory;
use std::alloc::Global;

// A board that a line asks for.
#[derive(Clone, Copy)]
pub(crate) struct StopRequest<'w> {
    pub(crate) texts: RequestTexts<'w>,
    pub(crate) values: BoardRequest<'w>,
}

// What is the matter with the first line that is refused, if any is.
pub(crate) fn first_fault(
    alloc: Global,
    feed: &Feed,
    zone: &Zone,
    lines: &[&str],
    times: Times,
) -> Result<Option<RequestFault>, OutOfMemory>
    ensures { IfOk result (λ fault. fault ≡ fault_in (requests_in (content_of_parts feed.now)
        (zone_origin zone.now) times (numbered_from 1 (map (λ l. l.now) lines.now)))) }
{
    for (index, line) in lines.iter().enumerate() {
        if line.is_empty() {
            continue;
        }
        let fault = line_fault(alloc, feed, zone, index + 1, line, times)?;
        if fault.is_some() {
            return Ok(fault);
        }
    }
    Ok(None)
}

// What is the matter with a line that is not empty.
fn line_fault(
    alloc: Global,
    feed: &Feed,
    zone: &Zone,
    number: usize,
    line: &str,
    times: Times,
) -> Result<Option<RequestFault>, OutOfMemory>
    ensures { IfOk result (λ fault. fault ≡ fault_in (judged (content_of_parts feed.now)
        (zone_origin zone.now) number (stop_request times line.now))) }
{
    let Some(request) = read_request(line, times) else {
        return Ok(Some(RequestFault::BadRequest(number)));
    };
    if feed.stop(request.texts.stop).is_none() {
        return Ok(Some(RequestFault::UnknownStop(number)));
    }
    if lies_before(alloc, zone, &request.values)? {
        return Ok(Some(RequestFault::UntilBeforeFrom(number)));
    }
    Ok(None)
}

// Whether the board would end before it begins.
fn lies_before(alloc: Global, zone: &Zone, values: &BoardRequest<'_>) -> Result<bool, OutOfMemory>
    requires from { IsSound values.now.from }
    requires until { IsSound values.now.until }
    ensures { IfOk result (λ before. before
        ≡ int_lt (instant_at (zone_origin zone.now) values.now.until)
        (instant_at (zone_origin zone.now) values.now.from)) }
{
    let from = values.from.instant(alloc, zone)?;
    let until = values.until.instant(alloc, zone)?;
    Ok(until < from)
}

// What a line asks for.
// None where it has too few or too many fields, or a bad value, so also where it is empty.
pub(crate) fn read_request<'w>(line: &'w str, times: Times) -> Option<StopRequest<'w>>
    ensures request { option_map stop_request_of result ≡ stop_request times line.now }
    ensures times { IfSome result (λ q. q.values.times ≡ times) }
    ensures from { IfSome result (λ q. IsSound q.values.from) }
    ensures until { IfSome result (λ q. IsSound q.values.until) }
{
    let texts = read_texts(line)?;
    let Ok(values) = read_request_values(&texts, times) else {
        return None;
    };
    Some(StopRequest { texts, values })
}

// The texts of a line of three to five fields, which stand between tabs.
fn read_texts<'w>(line: &'w str) -> Option<RequestTexts<'w>>
    ensures { option_map request_texts_of result ≡ request_texts line.now }
{
    if field(line, 5).is_some() {
        return None;
    }
    let Some(stop) = field(line, 0) else {
        return None;
    };
    let Some(from) = field(line, 1) else {
        return None;
    };
    let Some(until) = field(line, 2) else {
        return None;
    };
    Some(RequestTexts {
        stop,
        from,
        until,
        limit: text_if_any(field(line, 3)),
        after: text_if_any(field(line, 4)),
    })
}

// The field of a line at an index, if it has so many.
pub(crate) fn field(line: &str, index: usize) -> Option<&str>
    ensures { option_map (λ t. t.now) result ≡ slice_get (fields_of line.now) index }
{
    line.split('\t').nth(index)
}

// An empty text is none.
pub(crate) fn text_if_any(field: Option<&str>) -> Option<&str>
    ensures { option_map (λ t. t.now) result
        ≡ option_and_then text_if_any (option_map (λ t. t.now) field.entry) }
{
    match field {
        Some(text) if !text.is_empty() => Some(text),
        _ => None,
    }
}
