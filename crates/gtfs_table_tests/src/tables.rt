//! Files with the records and values that they have, and the text of a table.
ghost use Rattle.std.specs.Prelude.{◌<◌, ◌-◌, ◌^◌};
ghost use Rattle.std.specs.Option.{ForSome};

use crate::assertions::{assert_is, assert_is_at};
use crate::shown::{records, shown, tables_of};
use gtfs_field::OutOfMemory;
use gtfs_table::{File, FolderFault, Folders, MemoryFolders, State, Tables, plain_character};
use std::alloc::Global;
use std::process::Abort;
use std::test::Fail;

const WORN: &[u8] = b"\xEF\xBB\xBFtrip_id,arrival_time,departure_time,stop_id,stop_sequence\r\n\
T1, 08:00:00 ,08:00:00,S1,1\r\n\
T1,24:60:00,24:10:00,S2,2\r\n\
T1,25:00:00,25:00:00,S3,3\r\n\
T1,26:00:00,26:00:00,S1\r\n\
T1,\"27:00:00";

const SIX_RECORDS: &str = "<trip_id><arrival_time><departure_time><stop_id><stop_sequence>\n\
<T1><08:00:00><08:00:00><S1><1>\n\
<T1><24:60:00><24:10:00><S2><2>\n\
<T1><25:00:00><25:00:00><S3><3>\n\
<T1><26:00:00><26:00:00><S1>\n\
<T1><27:00:00>\n";

// The text of the table that `push_stop_times` makes.
const PUSHED: &[u8] = b"trip_id,stop_headsign\nT1,\"Mill, \"\"north\"\"\"\n\"\"\n";

const CASES: &[(&[u8], &str)] = &[
    (b"", ""),
    (b"\xEF\xBB\xBF\xEF\xBB\xBF", ""),
    (b"\xEF\xBB\xBF\xEF\xBB\xBFa", "<a>\n"),
    (b"\n\r\n\r", ""),
    (b"a\rb\nc\r\nd", "<a>\n<b>\n<c>\n<d>\n"),
    (b"a,b,c\n1\n1,2,3,4\n", "<a><b><c>\n<1>\n<1><2><3><4>\n"),
    (b"\"\"\n", "<>\n"),
    (b"a,\"b,\"\"c\"\"\nd\",e\n", "<a><b,\"c\"\nd><e>\n"),
    (b"a,\"b\nc", "<a><b\nc>\n"),
    (b"a\0,\0 b\t \x7F\n", "<a><b>\n"),
    (b"\xC2\xA0a\n", "<\u{A0}a>\n"),
    (b"\"\xEF\xBB\xBFa\"\n", "<\u{FEFF}a>\n"),
    (b"a,\n", "<a><>\n"),
    (b"\xFF\n", ""),
    (WORN, SIX_RECORDS),
    (
        PUSHED,
        "<trip_id><stop_headsign>\n<T1><Mill, \"north\">\n<>\n",
    ),
];

// A field stays after its record is let go.
fn field_of(tables: &Tables, row: usize, n: usize) -> &str {
    tables.record(File::StopTimes, row).field(n)
}

// A record has these fields of its row, and past the last one it has the empty one.
fn assert_record(rt: &impl Abort, tables: &Tables, row: usize, count: usize) {
    let fields = tables.fields(File::StopTimes, row);
    let record = tables.record(File::StopTimes, row);
    let found = (fields, record.len(), record.is_empty());
    assert_is_at(rt, found, (count, count, count == 0), "fields of row", row);
    for n in 0..count {
        let field = tables.field(File::StopTimes, row, n);
        assert_is_at(rt, field_of(tables, row, n), field, "field of", (row, n));
    }
    let past = (
        field_of(tables, row, count),
        tables.field(File::StopTimes, row, count),
    );
    assert_is_at(rt, past, ("", ""), "past the last field of", row);
}

// Each record by its fields. The rows before the first and past the last are not there.
fn assert_records(rt: &impl Abort, tables: &Tables) {
    let last = tables.records(File::StopTimes);
    for row in 1..last.saturating_add(1) {
        assert_record(rt, tables, row, tables.fields(File::StopTimes, row));
    }
    assert_record(rt, tables, 0, 0);
    assert_record(rt, tables, last.saturating_add(1), 0);
}

#[test]
fn records_of_texts(rt: HostRuntime) -> Result<(), Fail> {
    for (bytes, want) in CASES {
        let tables = tables_of(rt.alloc(), File::StopTimes, bytes)?;
        let shown = records(rt.alloc(), &tables, File::StopTimes)?;
        assert_is_at(&rt, shown.as_str(), *want, "records of", *bytes);
        assert_records(&rt, &tables);
    }
    Ok(())
}

// The number of each row with its stop.
fn stops_by_row(alloc: Global, tables: &Tables) -> Result<String, OutOfMemory> {
    let stop_id = tables.column(File::StopTimes, "stop_id");
    let mut text = String::new(alloc);
    for (n, record) in tables.rows(File::StopTimes) {
        let stop = record.value(stop_id);
        text.push_str(format!(in alloc; "{n} {stop};")?.as_str())?;
    }
    Ok(text)
}

// A record of blanks alone counts in the numbers of rows, and is none.
#[test]
fn a_blank_record_is_no_row(rt: HostRuntime) -> Result<(), Fail> {
    let bytes = b"trip_id,stop_id\nT1,S1\n , \nT1,S2\n";
    let tables = tables_of(rt.alloc(), File::StopTimes, bytes)?;
    let stops = stops_by_row(rt.alloc(), &tables)?;
    assert_is(&rt, stops.as_str(), "2 S1;4 S2;", "stops");
    for (row, is_row) in [
        (0, false),
        (1, false),
        (2, true),
        (3, false),
        (4, true),
        (5, false),
    ] {
        let found = tables.is_row(File::StopTimes, row);
        assert_is_at(&rt, found, is_row, "a row is", row);
    }
    let blank = tables.row(File::StopTimes, 3).is_none();
    let last = tables.row(File::StopTimes, 4).is_some();
    assert_is(
        &rt,
        (blank, last),
        (true, true),
        "the blank record and the last",
    );
    Ok(())
}

// Files of the folder f1.
type Files = &'static [(&'static str, &'static [u8])];

const FOUR: Files = &[
    (
        "agency.txt",
        b"agency_name,agency_url,agency_timezone\nMetro,http://m.example,UTC\n",
    ),
    ("notes.txt", b"none"),
    ("stops.txt", b"stop_id, stop_name ,,stop_id\nS1,Mill,x,S9\n"),
    ("trips.txt", b"\xEF\xBB\xBFtrip_id\n\xC3"),
];

const CITY: Files = &[
    (
        "agency.txt",
        b"agency_name,agency_url,agency_timezone\nMetro,http://m.example,UTC\n",
    ),
    (
        "stops.txt",
        b"stop_id,stop_name,stop_lat,stop_lon\nS1,Mill,52.5,13.4\nS2,Lake,52.6,13.5\nS3,Hill,52.7,13.6\n",
    ),
    (
        "routes.txt",
        b"route_id,route_short_name,route_type\nR1,10,3\n",
    ),
    ("trips.txt", b"route_id,service_id,trip_id\nR1,C1,T1\n"),
    (
        "stop_times.txt",
        b"trip_id,arrival_time,departure_time,stop_id,stop_sequence\n\
T1,08:00:00,08:00:00,S1,1\nT1,08:10:00,08:10:00,S2,2\n",
    ),
    (
        "calendar.txt",
        b"service_id,monday,tuesday,wednesday,thursday,friday,saturday,sunday,start_date,end_date\n\
C1,1,1,1,1,1,1,1,20240401,20240401\n",
    ),
];

// Each folder with the states of its files, their records and the other names.
const FOLDERS: &[(Files, &str)] = &[
    (
        FOUR,
        "agency.txt is read\n\
<agency_name><agency_url><agency_timezone>\n\
<Metro><http://m.example><UTC>\n\
stops.txt is read\n\
<stop_id><stop_name><><stop_id>\n\
<S1><Mill><x><S9>\n\
routes.txt is absent\n\
trips.txt is not UTF-8\n\
stop_times.txt is absent\n\
calendar.txt is absent\n\
calendar_dates.txt is absent\n\
frequencies.txt is absent\n\
transfers.txt is absent\n\
notes.txt\n",
    ),
    (
        CITY,
        "agency.txt is read\n\
<agency_name><agency_url><agency_timezone>\n\
<Metro><http://m.example><UTC>\n\
stops.txt is read\n\
<stop_id><stop_name><stop_lat><stop_lon>\n\
<S1><Mill><52.5><13.4>\n\
<S2><Lake><52.6><13.5>\n\
<S3><Hill><52.7><13.6>\n\
routes.txt is read\n\
<route_id><route_short_name><route_type>\n\
<R1><10><3>\n\
trips.txt is read\n\
<route_id><service_id><trip_id>\n\
<R1><C1><T1>\n\
stop_times.txt is read\n\
<trip_id><arrival_time><departure_time><stop_id><stop_sequence>\n\
<T1><08:00:00><08:00:00><S1><1>\n\
<T1><08:10:00><08:10:00><S2><2>\n\
calendar.txt is read\n\
<service_id><monday><tuesday><wednesday><thursday><friday><saturday><sunday><start_date><end_date>\n\
<C1><1><1><1><1><1><1><1><20240401><20240401>\n\
calendar_dates.txt is absent\n\
frequencies.txt is absent\n\
transfers.txt is absent\n",
    ),
];

// Folders with these files in the folder f1, of whose calls the one with the number fails.
fn folders_of(alloc: Global, files: Files, fail: Option<u64>) -> Result<MemoryFolders, OutOfMemory>
    requires { ForSome fail (λ number. number < 2 ^ 64 - 1) }
{
    let mut folders = MemoryFolders::new(alloc, 1_000, fail);
    for (name, bytes) in files {
        folders.put("f1", name, bytes)?;
    }
    Ok(folders)
}

#[test]
fn folders_are_read(rt: HostRuntime) -> Result<(), Fail> {
    for (files, wanted) in FOLDERS {
        let mut folders = folders_of(rt.alloc(), files, None)?;
        let tables = Tables::read(rt.alloc(), &mut folders, "f1")?;
        let found = shown(rt.alloc(), &tables)?;
        assert_is(&rt, found.as_str(), *wanted, "folder");
    }
    Ok(())
}

// A file, a row and a column, and the value there.
type ValueAt = (File, usize, &'static str, &'static str);

const VALUES: &[(Files, &[ValueAt])] = &[
    (
        FOUR,
        &[
            (File::Agency, 2, "agency_timezone", "UTC"),
            (File::Stops, 2, "stop_id", "S1"),
            (File::Stops, 0, "stop_id", ""),
            (File::Stops, 3, "stop_id", ""),
        ],
    ),
    (
        CITY,
        &[
            (File::StopTimes, 3, "stop_id", "S2"),
            (File::Calendar, 2, "end_date", "20240401"),
        ],
    ),
    (
        &[("stop_times.txt", WORN)],
        &[
            (File::StopTimes, 2, "arrival_time", "08:00:00"),
            (File::StopTimes, 5, "stop_sequence", ""),
            (File::StopTimes, 6, "trip_id", "T1"),
        ],
    ),
];

fn assert_values(rt: &impl Abort, tables: &Tables, values: &[ValueAt]) {
    for &(file, row, column, want) in values {
        let found = tables.value(file, row, column);
        assert_is_at(rt, found, want, "row and column", (row, column));
    }
}

#[test]
fn folders_have_values(rt: HostRuntime) -> Result<(), Fail> {
    for (files, values) in VALUES {
        let mut folders = folders_of(rt.alloc(), files, None)?;
        let tables = Tables::read(rt.alloc(), &mut folders, "f1")?;
        assert_values(&rt, &tables, values);
    }
    Ok(())
}

const STOP_COLUMNS: &[(&str, Option<usize>)] = &[
    ("stop_id", Some(0)),
    ("stop_name", Some(1)),
    ("", None),
    ("stop_lat", None),
];

#[test]
fn a_folder_has_columns(rt: HostRuntime) -> Result<(), Fail> {
    let mut folders = folders_of(rt.alloc(), FOUR, None)?;
    let tables = Tables::read(rt.alloc(), &mut folders, "f1")?;
    for (column, index) in STOP_COLUMNS {
        let found = tables.column(File::Stops, column);
        assert_is_at(&rt, found, *index, "column", *column);
    }
    Ok(())
}

// More bytes than the limit.
static LONG: [u8; 1_001] = [b'a'; 1_001];

// Files that are over the limit, which call reads each of them, and the fault that is told of it.
// A long file is refused where it is a kept one.
const READINGS: &[(&str, u64, Option<FolderFault>)] = &[
    ("agency.txt", 2, Some(FolderFault::TooLarge)),
    ("stops.txt", 3, Some(FolderFault::TooLarge)),
    ("routes.txt", 4, Some(FolderFault::TooLarge)),
    ("trips.txt", 5, Some(FolderFault::TooLarge)),
    ("stop_times.txt", 6, Some(FolderFault::TooLarge)),
    ("calendar.txt", 7, Some(FolderFault::TooLarge)),
    ("calendar_dates.txt", 8, Some(FolderFault::TooLarge)),
    ("frequencies.txt", 9, Some(FolderFault::TooLarge)),
    ("transfers.txt", 10, Some(FolderFault::TooLarge)),
    ("notes.txt", 10, None),
];

// A file of the city is over the limit, and a call fails:
// which fault is told, and how many calls failed.
fn first_fault(
    alloc: Global,
    name: &str,
    number: u64,
) -> Result<(Option<FolderFault>, u64), OutOfMemory>
    requires { number < 2 ^ 64 - 1 }
{
    let mut folders = folders_of(alloc, CITY, Some(number))?;
    folders.put("f1", name, &LONG)?;
    let fault = Tables::read(alloc, &mut folders, "f1").err();
    Ok((fault, folders.failures()))
}

// Of the calls of a reading, one for the names and one for each kept file, the one with the number
// fails. What comes first is told, and no call comes after it.
#[test]
fn the_first_of_two_faults_is_told(rt: HostRuntime) -> Result<(), Fail> {
    for &(name, reading, fault) in READINGS {
        for number in 1..12 {
            let told = if number <= reading {
                (Some(FolderFault::Read), 1)
            } else {
                (fault, 0)
            };
            let found = first_fault(rt.alloc(), name, number)?;
            assert_is_at(&rt, found, told, "call and file", (number, name));
        }
    }
    Ok(())
}

#[test]
fn a_folder_that_is_not_there_is_refused(rt: HostRuntime) -> Result<(), Fail> {
    let mut folders = folders_of(rt.alloc(), CITY, None)?;
    let fault = Tables::read(rt.alloc(), &mut folders, "f2").err();
    let found = (fault, folders.failures());
    assert_is(&rt, found, (Some(FolderFault::NoFolder), 0), "fault");
    Ok(())
}

fn push_stop_times(tables: &mut Tables) -> Result<(), OutOfMemory> {
    tables.push_record(File::StopTimes, "trip_id")?;
    if tables.records(File::StopTimes) > 0 {
        tables.push_field(File::StopTimes, "stop_headsign")?;
    }
    tables.push_record(File::StopTimes, "T1")?;
    if tables.records(File::StopTimes) > 0 {
        tables.push_field(File::StopTimes, "Mill, \"north\"")?;
    }
    tables.push_record(File::StopTimes, "")
}

// A file that is absent has no text, and no record.
#[test]
fn pushed_records_are_written(rt: HostRuntime) -> Result<(), Fail> {
    let mut tables = Tables::empty(rt.alloc());
    assert_records(&rt, &tables);
    push_stop_times(&mut tables)?;
    let states = (tables.state(File::StopTimes), tables.state(File::Stops));
    assert_is(&rt, states, (State::Read, State::Absent), "states");
    let bytes = tables.write(rt.alloc(), File::StopTimes)?.ok_or("no text")?;
    assert_is(&rt, bytes.as_slice(), PUSHED, "text");
    let other = tables.write(rt.alloc(), File::Stops)?;
    assert_is(&rt, other.is_none(), true, "no text of an absent file");
    Ok(())
}

const PLAIN: &[(char, char)] = &[
    ('\0', ' '),
    ('\n', ' '),
    ('\x1F', ' '),
    (' ', ' '),
    ('~', '~'),
    ('\x7F', ' '),
    ('\u{80}', '\u{80}'),
    ('\u{2028}', '\u{2028}'),
    ('\u{10FFFF}', '\u{10FFFF}'),
];

#[test]
fn a_space_stands_for_each_control_character(rt: HostRuntime) {
    for (character, plain) in PLAIN {
        let found = plain_character(*character);
        assert_is_at(&rt, found, *plain, "in the place of", *character);
    }
}
