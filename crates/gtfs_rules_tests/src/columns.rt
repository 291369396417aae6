//! The columns' calls on their happy paths:
//! what a value is, what is wrong with a text, and where an id stands.

use crate::assertions::{assert_case, assert_is};
use crate::feed::{FREQUENCIES, FileLines, put_files, small_feed};
use gtfs_field::{Axis, Clock, Colour, Coord, Day, FieldFault};
use gtfs_rules::{Passed, check};
use gtfs_schema::{
    Code, Column, Empty, FeedIds, FileName, Finder, Found, Ids, Kind, Problem, cell_code,
    fault_code, has_control, is_one_of, is_required, length_code, push_plain, read_choice,
    stop_types, type_of, values,
};
use gtfs_table::{File, Tables};
use std::alloc::Global;
use std::process::Abort;
use std::test::Fail;

// A call that reads the value of a text.
#[derive(Clone, Copy)]
enum Call {
    Seconds,
    Time,
    Clock,
    Date,
    Day,
    Count,
    RouteType,
    LocationType,
    Colour,
    Latitude,
    Longitude,
}

// The number of the value that a call reads, where there is one.
fn number_of(call: Call, text: &str) -> Option<i64> {
    match call {
        Call::Seconds => wide(values::seconds(text)),
        Call::Time => values::time(text),
        Call::Clock => seconds_of(values::clock(text)),
        Call::Date => values::date(text),
        Call::Day => days_of(values::day(text)),
        Call::Count => wide(values::count(text)),
        Call::RouteType => wide(values::choice(&[(0, 7), (11, 12), (100, 1799)], text)),
        Call::LocationType => values::choice_or(&[(0, 4)], "0", text),
        Call::Colour => bits_of(values::colour(text)),
        Call::Latitude => units_of(values::coordinate(Axis::Latitude, text)),
        Call::Longitude => units_of(values::coordinate(Axis::Longitude, text)),
    }
}

fn wide(number: Option<u32>) -> Option<i64> {
    Some(i64::from(number?))
}

fn seconds_of(clock: Option<Clock>) -> Option<i64> {
    Some(i64::from(clock?.seconds()))
}

fn days_of(day: Option<Day>) -> Option<i64> {
    Some(i64::from(day?.number()))
}

fn bits_of(colour: Option<Colour>) -> Option<i64> {
    Some(i64::from(colour?.bits()))
}

fn units_of(coord: Option<Coord>) -> Option<i64> {
    Some(coord?.nanodegrees())
}

// Texts, each with the number of its value.
type Texts = &'static [(&'static str, Option<i64>)];

const TIMES: Texts = &[
    ("7:05:00", Some(25_500)),
    ("08:00:00", Some(28_800)),
    ("999:59:59", Some(3_599_999)),
    ("1000:00:00", None),
    ("08:60:00", None),
    ("", None),
];

const DATES: Texts = &[
    ("19700102", Some(1)),
    ("20240229", Some(19_782)),
    ("99991231", Some(2_932_896)),
    ("20230229", None),
    ("18991231", None),
    ("2024-02-29", None),
    ("", None),
];

const COUNTS: Texts = &[
    ("007", Some(7)),
    ("2147483647", Some(2_147_483_647)),
    ("2147483648", None),
];

const LATITUDES: Texts = &[
    ("52.1234567899", Some(52_123_456_789)),
    ("-0.0000000001", Some(0)),
    ("90.0000000001", Some(90_000_000_000)),
    ("90.000000001", None),
    (".5", Some(500_000_000)),
    ("5.", Some(5_000_000_000)),
    ("1e1", None),
    ("-", None),
    ("", None),
];

// What each call reads.
const READ: &[(Call, Texts)] = &[
    (Call::Seconds, TIMES),
    (Call::Time, TIMES),
    (Call::Clock, TIMES),
    (Call::Date, DATES),
    (Call::Day, DATES),
    (Call::Count, COUNTS),
    (Call::RouteType, &[("11", Some(11)), ("8", None)]),
    (
        Call::LocationType,
        &[("", Some(0)), ("3", Some(3)), ("5", None)],
    ),
    (
        Call::Colour,
        &[("00ff7f", Some(0x00_FF7F)), ("00ff7", None)],
    ),
    (Call::Latitude, LATITUDES),
    (Call::Longitude, &[("180", Some(180_000_000_000))]),
];

#[test]
fn values_are_read(rt: HostRuntime) {
    for (call, texts) in READ {
        assert_reads(&rt, *call, texts);
    }
}

fn assert_reads(rt: &impl Abort, call: Call, texts: &[(&str, Option<i64>)]) {
    for (text, wanted) in texts {
        let case = (call as u32, *text);
        assert_case(rt, number_of(call, text), *wanted, "number", case);
    }
}

#[test]
fn texts_are_read(rt: HostRuntime) {
    for (text, id) in [("S1", Some("S1")), ("S\t1", None), ("", None)] {
        assert_case(&rt, values::id(text), id, "id", text);
        assert_case(&rt, values::is_id(text), id.is_some(), "an id", text);
    }
    for (text, meant) in [("", "0"), ("1", "1")] {
        assert_case(&rt, values::meant("0", text), meant, "meaning", text);
    }
    for (text, is_so) in [("\u{7f}", true), ("Mill Road", false)] {
        assert_case(&rt, has_control(text), is_so, "control character", text);
    }
}

#[test]
fn control_characters_become_spaces(rt: HostRuntime) -> Result<(), Fail> {
    let mut shown = String::with_capacity(rt.alloc(), 20)?;
    push_plain(&mut shown, "Mill\tRoad\u{7f}");
    assert_is(&rt, shown.as_str(), "Mill Road ", "a tab and a delete");
    Ok(())
}

#[test]
fn values_of_tables_that_pass_are_there(rt: HostRuntime) -> Result<(), Fail> {
    let mut folders = small_feed(rt.alloc())?;
    put_files(rt.alloc(), &mut folders, &[HOURLY])?;
    let tables = Tables::read(rt.alloc(), &mut folders, "f1")?;
    assert_passes(&rt, rt.alloc(), &tables)
}

fn assert_passes(rt: &impl Abort, alloc: Global, tables: &Tables) -> Result<(), Fail> {
    match check(alloc, tables)?.passed() {
        Ok(passed) => assert_first_rows(rt, &passed),
        Err(report) => assert_is(rt, report.problems().len(), 0, "problems"),
    }
    Ok(())
}

// Columns of the first rows, with the call that reads them. Not all have a value.
const FIRST_ROWS: &[(File, &str, Call, Option<i64>)] = &[
    (File::Stops, "location_type", Call::LocationType, Some(0)),
    (File::Routes, "route_type", Call::RouteType, Some(3)),
    (File::Routes, "route_color", Call::Colour, None),
    (File::StopTimes, "stop_sequence", Call::Count, Some(1)),
    (File::Frequencies, "start_time", Call::Clock, Some(21_600)),
    (File::Calendar, "start_date", Call::Day, Some(19_814)),
];

fn assert_first_rows(rt: &impl Abort, passed: &Passed<'_>) {
    let stop_id = passed.tables().value(File::Stops, 2, "stop_id");
    assert_is(rt, values::id(stop_id), Some("S1"), "stop_id");
    for (file, column, call, wanted) in FIRST_ROWS {
        let text = passed.tables().value(*file, 2, column);
        assert_case(rt, number_of(*call, text), *wanted, "first row", *column);
    }
}

// A frequency of the trip of the small feed.
const HOURLY: FileLines = (
    "frequencies.txt",
    &[FREQUENCIES, "T1,06:00:00,07:00:00,600"],
);

fn stop_id_column(empty: Empty) -> Column {
    Column {
        name: "stop_id",
        kind: Kind::Id,
        empty,
    }
}

#[test]
fn a_text_has_one_code_under_a_column(rt: HostRuntime) {
    let required = stop_id_column(Empty::Refused);
    let optional = stop_id_column(Empty::Nothing);
    let meaning = stop_id_column(Empty::Means("0"));
    for (column, is_so) in [(&required, true), (&optional, false), (&meaning, false)] {
        assert_case(&rt, is_required(column), is_so, "required", is_so);
    }
    for (is_named, column, text, code) in [
        (true, &required, "", Some(Code::E06)),
        (false, &required, "", None),
        (true, &optional, "", None),
        (true, &required, "S\t1", Some(Code::E20)),
        (true, &required, "S1", None),
    ] {
        let found = cell_code(is_named, column, text);
        let case = (is_named, is_required(column), text);
        assert_case(&rt, found, code, "code", case);
    }
}

#[test]
fn a_text_has_one_code_under_a_kind(rt: HostRuntime) {
    for (kind, text, code) in [
        (Kind::Text, "S\t1", Some(Code::W05)),
        (Kind::Time, "08:60:00", Some(Code::E07)),
        (Kind::Choice(&[(0, 4)]), "5", Some(Code::E08)),
        (Kind::Coordinate(Axis::Latitude), "90", None),
    ] {
        assert_case(&rt, fault_code(kind, text), code, "code", text);
    }
    for (text, choice) in [
        ("4", Ok(4)),
        ("5", Err(FieldFault::Range)),
        ("x", Err(FieldFault::Form)),
    ] {
        assert_case(&rt, read_choice(&[(0, 4)], text), choice, "choice", text);
    }
    for (fields, code) in [(4, Some(Code::W01)), (6, Some(Code::W02)), (5, None)] {
        assert_case(&rt, length_code(5, fields), code, "length", fields);
    }
}

// The first row of an id, which is asked for after others.
fn first_row_of(ids: &Ids<'_>, id: &str) -> Option<usize> {
    let mut finder = Finder::new(ids);
    let _station = finder.first_row("P1");
    let _nowhere = finder.first_row("S8");
    finder.first_row(id)
}

// Stops with their location types; the second S1 is a station.
const TYPED: FileLines = (
    "stops.txt",
    &["stop_id,location_type", "S1,", "P1,1", "S1,1", "X1,9"],
);

#[test]
fn the_first_row_of_an_id_is_found(rt: HostRuntime) -> Result<(), Fail> {
    let mut folders = small_feed(rt.alloc())?;
    put_files(rt.alloc(), &mut folders, &[TYPED])?;
    let tables = Tables::read(rt.alloc(), &mut folders, "f1")?;
    let ids = FeedIds::new(rt.alloc(), &tables)?;
    assert_stops_found(&rt, &ids.network.stops);
    let types = stop_types(rt.alloc(), &tables)?;
    assert_types(&rt, types.as_slice());
    Ok(())
}

fn assert_stops_found(rt: &impl Abort, stops: &Ids<'_>) {
    for (id, row) in [
        ("S1", Some(2)),
        ("P1", Some(3)),
        ("X1", Some(5)),
        ("S9", None),
    ] {
        assert_case(rt, first_row_of(stops, id), row, "first row", id);
    }
}

fn assert_types(rt: &impl Abort, types: &[Option<i64>]) {
    for (row, location_type) in [
        (2, Some(0)),
        (3, Some(1)),
        (4, Some(1)),
        (5, None),
        (6, Some(0)),
    ] {
        assert_case(rt, type_of(types, row), location_type, "type", row);
    }
    for (number, is_so) in [(2, true), (1, false)] {
        assert_case(rt, is_one_of(&[0, 2, 3], number), is_so, "one of", number);
    }
}

fn problem(
    file: FileName<'static>,
    row: usize,
    code: Code,
    column: &'static str,
) -> Problem<'static> {
    Problem {
        file,
        row,
        code,
        column,
    }
}

#[test]
fn problems_that_were_found_are_put_in_order(rt: HostRuntime) -> Result<(), Fail> {
    let trips = FileName::Kept(File::Trips);
    let wanted = [
        problem(trips, 2, Code::E06, "trip_id"),
        problem(trips, 2, Code::E10, "route_id"),
        problem(trips, 3, Code::E06, "route_id"),
        problem(FileName::Other("a.txt"), 0, Code::W03, ""),
    ];
    let mut found = Found::new(rt.alloc());
    for problem in wanted.iter().rev() {
        found.report_if(*problem, true)?;
        found.report_if(*problem, true)?;
    }
    found.report_if(problem(trips, 4, Code::E06, "trip_id"), false)?;
    let sorted = found.into_sorted();
    assert!(rt; sorted.as_slice() == wanted.as_slice());
    Ok(())
}

const NAMES: [&str; 28] = [
    "E01", "E02", "E03", "E04", "E05", "E06", "E07", "E08", "E09", "E10", "E11", "E12", "E13",
    "E14", "E15", "E16", "E17", "E18", "E19", "E20", "W01", "W02", "W03", "W04", "W05", "W06",
    "W07", "W08",
];

#[test]
fn all_codes_stand_in_order(rt: HostRuntime) {
    for (code, name) in Code::all().into_iter().zip(NAMES) {
        assert_case(&rt, code.name(), name, "name", name);
        let is_error = name.starts_with('E');
        assert_case(&rt, code.is_error(), is_error, "error", name);
    }
}
