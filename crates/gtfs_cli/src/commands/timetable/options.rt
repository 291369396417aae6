ghost use Rattle.std.specs.Prelude.{◌≡◌, option_map, IfOk, IfErr};
ghost use Rattle.gtfs_commands.specs.Words.{timetable_texts_of};
ghost use Rattle.gtfs_cli.specs.TimetableOptions.{direction_of, judged_timetable, IsTimetableRequest};
ghost use Rattle.gtfs_cli.specs.RefusalOrder.{IsFirstBad};
ghost use Rattle.gtfs_cli.specs.TimetableCommand.{timetable_request_of};

use crate::commands::options::read_times;
use crate::commands::refusal::Refusal;
use gtfs_board::Times;
use gtfs_commands::TimetableTexts;
use gtfs_field::{Day, read_date};

// The values of the options of a timetable.
#[derive(Clone, Copy)]
pub(crate) struct TimetableRequest {
    // The service date of the runs.
    pub(crate) day: Day,
    // The direction of the trips, 0 or 1, if only one is wanted.
    pub(crate) direction: Option<u8>,
    // The times of the feed's rows.
    pub(crate) times: Times,
}

// Reads the values in the order of the usage.
// Errors: `BadValue` of the first that is bad.
pub(crate) fn read_timetable_values<'w>(
    words: &TimetableTexts<'w>,
) -> Result<TimetableRequest, Refusal<'w>>
    ensures read { IfOk result (λ values. IsTimetableRequest (timetable_texts_of words.now)
        (timetable_request_of values)) }
    ensures refused { IfErr result (IsFirstBad (judged_timetable (timetable_texts_of words.now))) }
{
    let Ok(day) = read_date(words.date) else {
        return Err(Refusal::BadValue("--date"));
    };
    let Some(direction) = read_direction(words.direction) else {
        return Err(Refusal::BadValue("--direction"));
    };
    Ok(TimetableRequest {
        day,
        direction,
        times: read_times(words.interpolate),
    })
}

// Reads the value of `--direction`, exactly 0 or 1. None where it is neither.
pub(crate) fn read_direction(text: Option<&str>) -> Option<Option<u8>>
    ensures { result ≡ direction_of (option_map (λ t. t.now) text.entry) }
{
    match text {
        None => Some(None),
        Some("0") => Some(Some(0)),
        Some("1") => Some(Some(1)),
        Some(_) => None,
    }
}
