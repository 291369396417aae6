ghost use Rattle.std.specs.Prelude.{◌≡◌, ◌++◌, ◌<◌, string_bytes, OnOk};
ghost use Rattle.gtfs_advice.specs.Advice.{about_of, advice_of, IsWithin};
ghost use Rattle.gtfs_cli.specs.AdviceLines.{about_text, advice_line, advised_text};

use crate::report::problem_line::push_shown_count;
use gtfs_advice::{Advice, Subject};
use gtfs_board::Feed;
use gtfs_field::{OutOfMemory, push_date};
use itoa::Buffer;
use std::alloc::Global;

// Appends the line of an advice, with the number of its code if that is shown.
// Errors: `OutOfMemory` where the text cannot grow.
pub(crate) fn push_advice(
    alloc: Global,
    text: &mut String,
    feed: &Feed,
    advice: &Advice,
    count: Option<usize>,
) -> Result<(), OutOfMemory>
    requires { IsWithin feed.now advice.now.subject }
    ensures { OnOk result (string_bytes text.new
        ≡ string_bytes text.old ++ advice_line (advice_of feed.now advice.now) count) }
{
    text.push_str(advice.code.name())?;
    text.push(' ')?;
    text.push_str(advice.code.file().name())?;
    text.push('\t')?;
    push_subject(alloc, text, feed, advice.subject)?;
    text.push('\t')?;
    text.push_str(advice.code.text())?;
    push_shown_count(text, count)?;
    text.push('\n')
}

// Appends an id, a date, or a dash.
fn push_subject(
    alloc: Global,
    text: &mut String,
    feed: &Feed,
    subject: Subject,
) -> Result<(), OutOfMemory>
    requires { IsWithin feed.now subject }
    ensures { OnOk result (string_bytes text.new
        ≡ string_bytes text.old ++ about_text (about_of feed.now subject)) }
{
    match subject {
        Subject::Agency(number) => text.push_str(feed.agency_by_number(number).agency_id.as_str()),
        Subject::Stop(number) => text.push_str(feed.stop_by_number(number).stop_id.as_str()),
        Subject::Route(number) => text.push_str(feed.route_by_number(number).route_id.as_str()),
        Subject::Trip(number) => text.push_str(feed.trip_by_number(number).trip_id.as_str()),
        Subject::Service(number) => text.push_str(feed.service_id(number)),
        Subject::Day(day) => push_date(alloc, text, day),
        Subject::Nothing => text.push('-'),
    }
}

// Appends the last line of a report with advice.
// Errors: `OutOfMemory` where the text cannot grow.
pub(crate) fn push_advised(
    text: &mut String,
    errors: usize,
    warnings: usize,
    count: usize,
) -> Result<(), OutOfMemory>
    ensures { OnOk result (string_bytes text.new
        ≡ string_bytes text.old ++ advised_text errors warnings count) }
{
    text.push_str("errors ")?;
    text.push_str(Buffer::new().format(errors))?;
    text.push_str(" warnings ")?;
    text.push_str(Buffer::new().format(warnings))?;
    text.push_str(" advice ")?;
    text.push_str(Buffer::new().format(count))?;
    text.push('\n')
}
