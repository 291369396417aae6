//! Texts that are longer than three bytes can count.

use crate::assertions::{assert_is, assert_that};
use gtfs_board::{Departure, Key, Mark, push_key, push_line, read_key};
use gtfs_field::{
    Clock, Colour, Coord, Day, OutOfMemory, Text, push_colour, push_coord, push_count, push_date,
    push_time,
};
use gtfs_fixtures::Clocks;
use std::alloc::Global;
use std::process::Abort;
use std::test::Fail;

// Three bytes count as far as 16,777,215.
const LONG: usize = 20_000_000;

// A letter so many times. (The length is that of a call, so that no proof computes the text.)
fn long_text(alloc: Global, letter: &str, len: usize) -> Result<String, OutOfMemory> {
    letter.repeat(alloc, len)
}

// What is appended, and how it ends then.
const ENDING: &str = "x23:59:5920240401FF80002147483647-13.4";

// A value of each kind.
fn push_values(alloc: Global, text: &mut String) -> Result<(), OutOfMemory> {
    push_time(alloc, text, Clock::from_seconds(86_399))?;
    push_date(alloc, text, Day::from_number(19_814))?;
    push_colour(alloc, text, Colour::from_bits(0xff_8000))?;
    push_count(alloc, text, 2_147_483_647)?;
    push_coord(alloc, text, Coord::from_nanodegrees(-13_400_000_000))
}

#[test]
fn values_are_appended_to_a_long_text(rt: HostRuntime) -> Result<(), Fail> {
    let mut text = long_text(rt.alloc(), "x", LONG)?;
    push_values(rt.alloc(), &mut text)?;
    assert_is(&rt, text.len(), LONG + 37, "length");
    assert_that(&rt, text.as_str().ends_with(ENDING), "each value is there");
    Ok(())
}

#[test]
fn a_long_text_is_copied(rt: HostRuntime) -> Result<(), Fail> {
    let text = long_text(rt.alloc(), "x", LONG)?;
    let copy = Text::copy_of(rt.alloc(), text.as_str())?;
    assert_that(&rt, copy.as_str() == text.as_str(), "the copy is the text");
    Ok(())
}

// 2024-04-01 08:00:00 in UTC.
const EIGHT: i64 = 1_711_958_400;

fn key_of(trip: &str) -> Key<'_> {
    Key {
        instant: EIGHT,
        trip,
        run: 28_800,
        seq: 1,
        day: Day::from_number(19_814),
    }
}

#[test]
fn a_key_has_a_long_id(rt: HostRuntime) -> Result<(), Fail> {
    let trip = long_text(rt.alloc(), "T", LONG)?;
    let key = key_of(trip.as_str());
    let mut text = String::new(rt.alloc());
    push_key(rt.alloc(), &mut text, &key)?;
    let is_read_back = read_key(text.as_str()) == Ok(key);
    assert_that(&rt, is_read_back, "the key reads back");
    Ok(())
}

#[test]
fn a_line_has_long_texts(rt: HostRuntime) -> Result<(), Fail> {
    let long = long_text(rt.alloc(), "H", LONG)?;
    let departure = Departure {
        key: Key {
            instant: EIGHT,
            ..key_of(long.as_str())
        },
        stop: long.as_str(),
        route: long.as_str(),
        headsign: long.as_str(),
        mark: Mark::Scheduled,
    };
    let zone = Clocks::Utc.zone(rt.alloc())?;
    let mut text = String::new(rt.alloc());
    push_line(rt.alloc(), &mut text, &zone, &departure)?;
    // beside the long texts: `@1711958400/`, `/28800/1/20240401`, a clock of 25 characters,
    // the mark, five tabs, a line feed
    assert_is(&rt, text.len(), 4 * LONG + 61, "length");
    assert_that(&rt, text.as_str().ends_with("H\ts\n"), "the mark is there");
    Ok(())
}
