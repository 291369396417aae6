//! What a request asks for that comes while the program serves.
ghost use Rattle.std.specs.Prelude.{◌≡◌, ◌≢◌, ◌++◌, ℕ, List, option_map, slice_get, None, IfSome, IsUtf8, MatchOption};
ghost use Rattle.std.specs.Option.{option_and_then};
ghost use Rattle.gtfs_cli.specs.LentServeQuestions.{question_of, route_request_of, route_texts_of, IsSoundQuestion};
ghost use Rattle.gtfs_cli.specs.ServeQuestions.{route_request, route_texts, route_values, AsksFor, AsksForNothing, Question as Asked};
ghost use Rattle.gtfs_cli.specs.TimetableCommand.{timetable_request_of};

use crate::commands::boards::{StopRequest, field, read_request, text_if_any};
use crate::commands::timetable::{TimetableRequest, read_direction};
use gtfs_board::Times;
use gtfs_field::read_date;

// The texts of a timetable, as they stand in its line.
#[derive(Clone, Copy)]
pub(crate) struct RouteTexts<'w> {
    route: &'w str,
    date: &'w str,
    // None where it is empty or not there.
    direction: Option<&'w str>,
}

// The timetable of a route that a line asks for.
#[derive(Clone, Copy)]
pub(crate) struct RouteRequest<'w> {
    pub(crate) route: &'w str,
    pub(crate) values: TimetableRequest,
}

// What a line asks for.
#[derive(Clone, Copy)]
pub(crate) enum Question<'w> {
    Board(StopRequest<'w>),
    Timetable(RouteRequest<'w>),
}

// What a line asks for: the word of a command, a tab and its fields.
// None where it is not UTF-8, has another word, too few or too many fields, or a bad value.
pub(crate) fn read_question(line: &[u8], times: Times) -> Option<Question<'_>>
    ensures asks { IfSome result (λ q. AsksFor times line.now (question_of q)) }
    ensures utf8 { IfSome result (λ _. IsUtf8 line.now) }
    ensures sound { IfSome result (IsSoundQuestion times) }
    ensures nothing { result ≡ None → AsksForNothing times line.now }
{
    let Ok(text) = str::from_utf8(line) else {
        return None;
    };
    question_in(text, times)
}

// What a text asks for.
fn question_in(line: &str, times: Times) -> Option<Question<'_>>
    ensures asks { IfSome result (λ q. AsksFor times line.now (question_of q)) }
    ensures sound { IfSome result (IsSoundQuestion times) }
    ensures nothing { result ≡ None → (q : Asked) → AsksFor times line.now q → ⊥ }
{
    if let Some(fields) = fields_behind(line, "board\t") {
        let Some(request) = read_request(fields, times) else {
            return None;
        };
        return Some(Question::Board(request));
    }
    let Some(fields) = fields_behind(line, "timetable\t") else {
        return None;
    };
    let Some(request) = read_route_request(fields, times) else {
        return None;
    };
    Some(Question::Timetable(request))
}

// What stands behind a word at the beginning of a line.
fn fields_behind<'w>(line: &'w str, word: &str) -> Option<&'w str>
    ensures { MatchOption result ((fields : List ℕ) → line.now ≢ word.now ++ fields)
        (λ fields. line.now ≡ word.now ++ fields.now) }
{
    line.strip_prefix(word)
}

// The timetable that fields ask for.
// None where there are too few or too many, or one has a bad value.
fn read_route_request<'w>(fields: &'w str, times: Times) -> Option<RouteRequest<'w>>
    ensures request { option_map route_request_of result ≡ route_request times fields.now }
    ensures times { IfSome result (λ r. r.values.times ≡ times) }
{
    let Some(texts) = read_route_texts(fields) else {
        return None;
    };
    let Some(values) = read_route_values(&texts, times) else {
        return None;
    };
    Some(RouteRequest {
        route: texts.route,
        values,
    })
}

// The values of the texts of a timetable. None where one is bad.
fn read_route_values(texts: &RouteTexts<'_>, times: Times) -> Option<TimetableRequest>
    ensures values { option_map timetable_request_of result
        ≡ route_values times (route_texts_of texts.now) }
    ensures times { IfSome result (λ v. v.times ≡ times) }
{
    let Ok(day) = read_date(texts.date) else {
        return None;
    };
    let Some(direction) = read_direction(texts.direction) else {
        return None;
    };
    Some(TimetableRequest {
        day,
        direction,
        times,
    })
}

// The texts of two or three fields, which stand between tabs.
fn read_route_texts<'w>(fields: &'w str) -> Option<RouteTexts<'w>>
    ensures { option_map route_texts_of result ≡ route_texts fields.now }
{
    if field(fields, 3).is_some() {
        return None;
    }
    let Some(route) = field(fields, 0) else {
        return None;
    };
    let Some(date) = field(fields, 1) else {
        return None;
    };
    Some(RouteTexts {
        route,
        date,
        direction: text_if_any(field(fields, 2)),
    })
}
