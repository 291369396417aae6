//! Texts of each kind with the values that they have, and the values' canonical texts.
use crate::assertions::{assert_is, assert_is_at, assert_that};
use gtfs_field::{
    Axis, Clock, Colour, Coord, Day, FieldFault, List, OutOfMemory, Text, push_colour, push_coord,
    push_count, push_date, push_time, read_colour, read_coord, read_count, read_date, read_instant,
    read_time,
};
use std::alloc::Global;
use std::process::Abort;
use std::test::Fail;

// What a text is read as.
#[derive(Clone, Copy)]
enum Kind {
    Time,
    Date,
    Colour,
    Count,
    Latitude,
    Longitude,
    Instant,
}

// The number that a text has: seconds, days, bits, a count or billionths of a degree.
fn read(kind: Kind, text: &str) -> Result<i64, FieldFault> {
    Ok(match kind {
        Kind::Time => i64::from(read_time(text)?.seconds()),
        Kind::Date => i64::from(read_date(text)?.number()),
        Kind::Colour => i64::from(read_colour(text)?.bits()),
        Kind::Count => i64::from(read_count(text)?),
        Kind::Latitude => read_coord(text, Axis::Latitude)?.nanodegrees(),
        Kind::Longitude => read_coord(text, Axis::Longitude)?.nanodegrees(),
        Kind::Instant => read_instant(text)?,
    })
}

// Texts with the numbers that they have.
type Numbers = &'static [(&'static str, Result<i64, FieldFault>)];

fn assert_read(rt: &impl Abort, kind: Kind, numbers: Numbers) {
    for (text, want) in numbers {
        assert_is_at(rt, read(kind, text), *want, "at", *text);
    }
}

const TIMES: Numbers = &[
    ("7:05:00", Ok(25_500)),
    ("07:05:00", Ok(25_500)),
    ("007:05:00", Ok(25_500)),
    ("00:00:00", Ok(0)),
    ("25:10:00", Ok(90_600)),
    ("999:59:59", Ok(3_599_999)),
    ("1000:00:00", Err(FieldFault::Form)),
    ("08:60:00", Err(FieldFault::Form)),
    ("08:00:60", Err(FieldFault::Form)),
    ("8:0:00", Err(FieldFault::Form)),
    ("08:00", Err(FieldFault::Form)),
    (":00:00", Err(FieldFault::Form)),
    (" 08:00:00", Err(FieldFault::Form)),
    ("-1:00:00", Err(FieldFault::Form)),
    ("", Err(FieldFault::Form)),
];

#[test]
fn times(rt: HostRuntime) {
    assert_read(&rt, Kind::Time, TIMES);
}

const DATES: Numbers = &[
    ("19700101", Ok(0)),
    ("20240229", Ok(19_782)),
    ("19000101", Ok(-25_567)),
    ("99991231", Ok(2_932_896)),
    ("20230229", Err(FieldFault::Range)),
    ("18991231", Err(FieldFault::Range)),
    ("20240001", Err(FieldFault::Range)),
    ("20241301", Err(FieldFault::Range)),
    ("20240100", Err(FieldFault::Range)),
    ("20240431", Err(FieldFault::Range)),
    ("00000000", Err(FieldFault::Range)),
    ("2024-02-29", Err(FieldFault::Form)),
    ("2024022", Err(FieldFault::Form)),
    ("202402299", Err(FieldFault::Form)),
    ("2024022x", Err(FieldFault::Form)),
    ("", Err(FieldFault::Form)),
];

#[test]
fn dates(rt: HostRuntime) {
    assert_read(&rt, Kind::Date, DATES);
}

const COLOURS: Numbers = &[
    ("00ff7f", Ok(0x00_FF7F)),
    ("00FF7F", Ok(0x00_FF7F)),
    ("FFFFFF", Ok(0xFF_FFFF)),
    ("000000", Ok(0)),
    ("#00FF7F", Err(FieldFault::Form)),
    ("00FF7", Err(FieldFault::Form)),
    ("+0FF7F", Err(FieldFault::Form)),
    ("00FF7G", Err(FieldFault::Form)),
    ("", Err(FieldFault::Form)),
];

#[test]
fn colours(rt: HostRuntime) {
    assert_read(&rt, Kind::Colour, COLOURS);
}

const COUNTS: Numbers = &[
    ("007", Ok(7)),
    ("0", Ok(0)),
    ("2147483647", Ok(2_147_483_647)),
    ("0000000000000000000000002147483647", Ok(2_147_483_647)),
    ("2147483648", Err(FieldFault::Range)),
    ("99999999999999999999999999", Err(FieldFault::Range)),
    ("99999999999999999999999999x", Err(FieldFault::Form)),
    ("+7", Err(FieldFault::Form)),
    ("-7", Err(FieldFault::Form)),
    ("7.0", Err(FieldFault::Form)),
    ("", Err(FieldFault::Form)),
];

#[test]
fn counts(rt: HostRuntime) {
    assert_read(&rt, Kind::Count, COUNTS);
}

const LATITUDES: Numbers = &[
    ("52.1234567899", Ok(52_123_456_789)),
    ("-0.0000000001", Ok(0)),
    ("-0.5", Ok(-500_000_000)),
    ("+0.5", Ok(500_000_000)),
    ("90.0000000001", Ok(90_000_000_000)),
    ("-90.0000000001", Ok(-90_000_000_000)),
    ("90.000000001", Err(FieldFault::Range)),
    ("-90.000000001", Err(FieldFault::Range)),
    ("99999999999999999999999", Err(FieldFault::Range)),
    (".5", Ok(500_000_000)),
    ("5.", Ok(5_000_000_000)),
    ("00000000000000000000005", Ok(5_000_000_000)),
    ("1e1", Err(FieldFault::Form)),
    ("-", Err(FieldFault::Form)),
    (".", Err(FieldFault::Form)),
    ("1.2.3", Err(FieldFault::Form)),
    ("--1", Err(FieldFault::Form)),
    ("", Err(FieldFault::Form)),
];

#[test]
fn latitudes(rt: HostRuntime) {
    assert_read(&rt, Kind::Latitude, LATITUDES);
}

const LONGITUDES: Numbers = &[
    ("179.9999999999", Ok(179_999_999_999)),
    ("180", Ok(180_000_000_000)),
    ("-180.0000000009", Ok(-180_000_000_000)),
    ("180.000000001", Err(FieldFault::Range)),
];

#[test]
fn longitudes(rt: HostRuntime) {
    assert_read(&rt, Kind::Longitude, LONGITUDES);
}

const INSTANTS: Numbers = &[
    ("1711837800", Ok(1_711_837_800)),
    ("-2208988800", Ok(-2_208_988_800)),
    ("0", Ok(0)),
    ("999999999999", Ok(999_999_999_999)),
    ("-999999999999", Ok(-999_999_999_999)),
    ("01711837800", Err(FieldFault::Form)),
    ("-0", Err(FieldFault::Form)),
    ("-01", Err(FieldFault::Form)),
    ("00", Err(FieldFault::Form)),
    ("+1", Err(FieldFault::Form)),
    ("@1", Err(FieldFault::Form)),
    ("-", Err(FieldFault::Form)),
    ("", Err(FieldFault::Form)),
    ("1000000000000", Err(FieldFault::Range)),
    ("-1000000000000", Err(FieldFault::Range)),
    ("99999999999999999999999999", Err(FieldFault::Range)),
    ("0999999999999", Err(FieldFault::Form)),
];

#[test]
fn instants(rt: HostRuntime) {
    assert_read(&rt, Kind::Instant, INSTANTS);
}

fn push_times(alloc: Global, text: &mut String) -> Result<(), OutOfMemory> {
    push_time(alloc, text, Clock::from_seconds(25_500))?;
    text.push(' ')?;
    push_time(alloc, text, Clock::from_seconds(3_599_999))?;
    text.push(' ')?;
    push_time(alloc, text, Clock::from_seconds(7_199_997))?;
    text.push(' ')
}

fn push_dates(alloc: Global, text: &mut String) -> Result<(), OutOfMemory> {
    push_date(alloc, text, Day::from_number(19_782))?;
    text.push(' ')?;
    push_date(alloc, text, Day::from_number(2_932_896))?;
    text.push(' ')
}

#[test]
fn canonical_texts(rt: HostRuntime) -> Result<(), Fail> {
    let mut text = String::new(rt.alloc());
    push_times(rt.alloc(), &mut text)?;
    push_dates(rt.alloc(), &mut text)?;
    push_colour(rt.alloc(), &mut text, Colour::from_bits(0x00_FF7F))?;
    text.push(' ')?;
    push_count(rt.alloc(), &mut text, 7)?;
    let wanted = "07:05:00 999:59:59 1999:59:57 20240229 99991231 00FF7F 7";
    assert_is(&rt, text.as_str(), wanted, "texts");
    Ok(())
}

fn coordinate_text(alloc: Global, coordinate: Coord) -> Result<String, OutOfMemory> {
    let mut text = String::new(alloc);
    push_coord(alloc, &mut text, coordinate)?;
    Ok(text)
}

const COORDINATES: &[(i64, &str)] = &[
    (52_123_456_789, "52.123456789"),
    (0, "0"),
    (-500_000_000, "-0.5"),
    (5_000_000_000, "5"),
    (13_400_000_000, "13.4"),
    (-180_000_000_000, "-180"),
    (-1, "-0.000000001"),
];

#[test]
fn canonical_coordinates(rt: HostRuntime) -> Result<(), Fail> {
    for &(nanodegrees, want) in COORDINATES {
        assert!(rt; -180_000_000_000 <= nanodegrees && nanodegrees <= 180_000_000_000);
        let text = coordinate_text(rt.alloc(), Coord::from_nanodegrees(nanodegrees))?;
        assert_is_at(&rt, text.as_str(), want, "text of", nanodegrees);
    }
    Ok(())
}

#[test]
fn texts(rt: HostRuntime) -> Result<(), Fail> {
    let text = Text::new(String::from_str(rt.alloc(), "Mill")?);
    assert_is(&rt, text.as_str(), "Mill", "text");
    assert_is(&rt, text.len(), 4, "length");
    assert_that(&rt, !text.is_empty(), "a text is not empty");
    Ok(())
}

// Texts of no bytes, of as many as lie in the value itself, of one less and of more.
const COPIED: &[&str] = &[
    "",
    "M",
    "Marktplatz (Nordseite) 1",
    "Marktplatz (Nordseite) ",
    "Marktplatz (Nordseite) 12",
    "Marktplatz (Nordseite) é",
    "Rådhuspladsen (Vesterbrogade)",
];

#[test]
fn copied_texts(rt: HostRuntime) -> Result<(), Fail> {
    for &want in COPIED {
        let text = Text::copy_of(rt.alloc(), want)?;
        assert_is_at(&rt, text.as_str(), want, "copy of", want);
        assert_is_at(&rt, text.len(), want.len(), "length of", want);
        assert_is_at(&rt, text.is_empty(), want == "", "emptiness of", want);
    }
    Ok(())
}

#[test]
fn lists(rt: HostRuntime) -> Result<(), Fail> {
    let list = List::new([1_u8, 2].to_vec(rt.alloc())?);
    assert_is(&rt, list.as_slice(), &[1, 2], "list");
    assert_is(&rt, list.len(), 2, "length");
    assert_that(&rt, !list.is_empty(), "a list is not empty");
    assert_is(&rt, list.into_vec().as_slice(), &[1, 2], "vector");
    Ok(())
}
