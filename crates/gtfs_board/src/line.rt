//! The line of a departure.
ghost use Rattle.std.specs.Prelude.{◌≡◌, ◌++◌, ◌≤◌, ◌+◌, ◌-◌, ◌^◌, min, string_bytes, string_len, OnOk, OnErr};
ghost use Rattle.std.specs.String.{string_capacity};
ghost use Rattle.gtfs_days.specs.Zone.{IsInstant};
ghost use Rattle.gtfs_board.specs.LentKeys.{listed};
ghost use Rattle.gtfs_board.specs.BoardLines.{line_text, texts_len, AppendsLine};

mod clock;

use crate::departure::Departure;
use crate::key::{KEY_ROOM, write_key};
use crate::line::clock::push_clock;
use gtfs_days::{Civil, Zone, ZoneClock};
use gtfs_field::OutOfMemory;
use std::alloc::Global;

// How many bytes of a line are neither the trip's id nor the text of a column, at most: those of
// the key, 29 of the clock, five tabs, two of the mark and the line feed.
const LINE_ROOM: usize = KEY_ROOM + 37;

/// Appends the line of a departure: the text of its key, the clock of the zone at its instant, the
/// stop, the route's name, the headsign and the mark, one tab between two of them, and a line feed.
///
/// The clock is `YYYY-MM-DD HH:MM:SS` and how far it is ahead of UTC, `+HH:MM` or `-HH:MM`, with
/// `:SS` where its seconds are not zero. The instant is one of `jiff`, from -377,705,023,201 to
/// 253,402,207,200, as that of each departure of a board is.
///
/// # Errors
/// `OutOfMemory` where the text cannot grow; it is then as it was.
pub fn push_line(
    _alloc: Global,
    text: &mut String,
    zone: &Zone,
    departure: &Departure<'_>,
) -> Result<(), OutOfMemory>
    requires { IsInstant departure.now.key.instant }
    ensures appended { OnOk result
        (AppendsLine zone.now (listed departure.now)
        (string_bytes text.old) (string_bytes text.new)) }
    ensures unchanged { OnErr result (string_bytes text.new ≡ string_bytes text.old) }
{
    push_shown(text, zone.clock(departure.key.instant), departure)
}

// The same by a clock that tells several lines.
pub(crate) fn push_line_by(
    text: &mut String,
    clock: &mut ZoneClock<'_>,
    departure: &Departure<'_>,
) -> Result<(), OutOfMemory>
    requires { IsInstant departure.now.key.instant }
    ensures appended { OnOk result
        (AppendsLine clock.old (listed departure.now)
        (string_bytes text.old) (string_bytes text.new)) }
    ensures unchanged { OnErr result (string_bytes text.new ≡ string_bytes text.old) }
    ensures zone { clock.new ≡ clock.old }
{
    push_shown(text, clock.at(departure.key.instant), departure)
}

// Appends the line of a departure, at whose instant the clock shows this.
fn push_shown(text: &mut String, civil: Civil, departure: &Departure<'_>) -> Result<(), OutOfMemory>
    ensures appended { OnOk result (string_bytes text.new
        ≡ string_bytes text.old ++ line_text civil (listed departure.now)) }
    ensures unchanged { OnErr result (string_bytes text.new ≡ string_bytes text.old) }
{
    text.reserve(room_for(departure))?;
    write_line(text, civil, departure);
    Ok(())
}

// How many bytes the line of a departure has, at most.
fn room_for(departure: &Departure<'_>) -> usize
    ensures { result ≡ min (90 + texts_len (listed departure.now)) (2 ^ 64 - 1) }
{
    LINE_ROOM
        .saturating_add(departure.key.trip.len())
        .saturating_add(departure.stop.len())
        .saturating_add(departure.route.len())
        .saturating_add(departure.headsign.len())
}

// Appends the line of a departure, for which there is room.
fn write_line(text: &mut String, civil: Civil, departure: &Departure<'_>)
    requires { string_len text.old + (90 + texts_len (listed departure.now))
        ≤ string_capacity text.old }
    ensures { string_bytes text.new
        ≡ string_bytes text.old ++ line_text civil (listed departure.now) }
{
    write_key(text, &departure.key);
    push_clock(text, civil);
    text.push_str(departure.stop).unwrap();
    text.push('\t').unwrap();
    text.push_str(departure.route).unwrap();
    text.push('\t').unwrap();
    text.push_str(departure.headsign).unwrap();
    text.push_str(departure.mark.ending()).unwrap();
}
