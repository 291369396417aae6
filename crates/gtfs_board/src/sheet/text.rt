//! The text of a sheet.
ghost use Rattle.std.specs.Prelude.{◌≡◌, ◌++◌, codes, map, string_bytes, zip, OnOk, OnErr};
ghost use Rattle.std.specs.List.{flat_map};
ghost use Rattle.gtfs_board.specs.Timetable.{after_tab, direction_shown, sheet_text, stop_text, tabbed, time_shown, title_text};
ghost use Rattle.gtfs_board.specs.LentSheets.{plain_sheet};

use crate::sheet::Sheet;
use gtfs_field::{Clock, OutOfMemory, push_date, push_time};
use itoa::Buffer;
use std::alloc::Global;

/// Appends the text of a sheet. Its first line is `== `, the route's id, the direction and the date
/// YYYYMMDD; the next is `trip` and the trip of each run; then for each stop time its stop and the
/// time of each run. One space parts the fields of the first line, one tab those of the others. A
/// direction or a time that is missing is `-`; times go up to 1999:59:57.
///
/// # Errors
/// `OutOfMemory` where the text cannot grow; it is then as it was.
pub fn push_sheet(alloc: Global, text: &mut String, sheet: &Sheet<'_>) -> Result<(), OutOfMemory>
    ensures appended { OnOk result
        (string_bytes text.new ≡ string_bytes text.old ++ sheet_text (plain_sheet sheet.now)) }
    ensures unchanged { OnErr result (string_bytes text.new ≡ string_bytes text.old) }
{
    let mut whole = String::new(alloc);
    push_title(alloc, &mut whole, sheet)?;
    push_trips(&mut whole, sheet.runs.as_slice())?;
    push_stops(alloc, &mut whole, sheet)?;
    text.push_str(whole.as_str())
}

// Appends the first line: the route, the direction and the date.
fn push_title(alloc: Global, text: &mut String, sheet: &Sheet<'_>) -> Result<(), OutOfMemory>
    ensures { OnOk result
        (string_bytes text.new ≡ string_bytes text.old ++ title_text (plain_sheet sheet.now)) }
{
    text.push_str("== ")?;
    text.push_str(sheet.route)?;
    text.push_str(" ")?;
    push_direction(text, sheet.direction)?;
    text.push_str(" ")?;
    push_date(alloc, text, sheet.day)?;
    text.push_str("\n")
}

// Appends a direction, or `-`.
fn push_direction(text: &mut String, direction: Option<u8>) -> Result<(), OutOfMemory>
    ensures { OnOk result (string_bytes text.new ≡ string_bytes text.old
        ++ direction_shown direction) }
{
    match direction {
        Some(number) => text.push_str(Buffer::new().format(number)),
        None => text.push_str("-"),
    }
}

// Appends the line of the trips of the runs.
fn push_trips(text: &mut String, runs: &[(u32, &str)]) -> Result<(), OutOfMemory>
    ensures { OnOk result (string_bytes text.new ≡ string_bytes text.old
        ++ (codes "trip" ++ tabbed (map (λ run. run.1.now) runs.now))) }
{
    text.push_str("trip")?;
    for run in runs {
        push_field(text, run.1)?;
    }
    text.push_str("\n")
}

// Appends a field and the tab before it.
fn push_field(text: &mut String, field: &str) -> Result<(), OutOfMemory>
    ensures { OnOk result (string_bytes text.new ≡ string_bytes text.old ++ after_tab field.now) }
{
    text.push_str("\t")?;
    text.push_str(field)
}

// Appends the lines of the stops.
fn push_stops(alloc: Global, text: &mut String, sheet: &Sheet<'_>) -> Result<(), OutOfMemory>
    ensures { OnOk result (string_bytes text.new ≡ string_bytes text.old
        ++ flat_map stop_text (zip (plain_sheet sheet.now).stops (plain_sheet sheet.now).times)) }
{
    let stops = sheet.stops.as_slice();
    let times = sheet.times.as_slice();
    for position in 0..stops.len().min(times.len()) {
        push_stop(alloc, text, stops[position], times[position].as_slice())?;
    }
    Ok(())
}

// Appends the line of a stop and of the times of the runs there.
fn push_stop(
    alloc: Global,
    text: &mut String,
    stop: &str,
    times: &[Option<Clock>],
) -> Result<(), OutOfMemory>
    ensures { OnOk result
        (string_bytes text.new ≡ string_bytes text.old ++ stop_text (stop.now, times.now)) }
{
    text.push_str(stop)?;
    for time in times {
        push_clock(alloc, text, *time)?;
    }
    text.push_str("\n")
}

// Appends a tab and a time, or `-`.
fn push_clock(alloc: Global, text: &mut String, time: Option<Clock>) -> Result<(), OutOfMemory>
    ensures { OnOk result
        (string_bytes text.new ≡ string_bytes text.old ++ after_tab (time_shown time)) }
{
    text.push_str("\t")?;
    match time {
        Some(clock) => push_time(alloc, text, clock),
        None => text.push_str("-"),
    }
}
