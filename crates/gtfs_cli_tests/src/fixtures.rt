//! The feed and the zone file of the tests, and how a call of `run` ends.
ghost use Rattle.std.specs.Prelude.{◌<◌, ◌-◌, ◌^◌};
ghost use Rattle.std.specs.Option.{ForSome};

use crate::assertions::assert_case;
use crate::ended::Ended;
use gtfs_field::OutOfMemory;
use gtfs_table::MemoryFolders;
use std::alloc::Global;
use std::hash::RandomState;
use std::io;
use std::process::Abort;
use std::random::RandomSource;
use std::test::Fail;

// Room for all that is written in these tests but where an output is to fail.
pub(super) const ROOM: usize = 4_000;

// The most bytes of a file that is read.
pub(super) const LIMIT: u64 = 1_000;

pub(super) const CHECK: [&str; 3] = ["gtfs", "check", "f1"];

pub(super) const MERGE: [&str; 5] = ["gtfs", "merge", "f1", "f2", "out"];

// What the program answers to `--version`.
pub(super) const VERSION: &str = "gtfs 1.1.0\n";

// What is told of an output that failed.
pub(super) const OUTPUT_FAILED: &str = "gtfs: output failed\n";

// The report of the merge of the feed with itself.
pub(super) const JOINED: &str = "joined agency 1\n\
joined stop 3\n\
joined route 1\n\
joined service 1\n\
joined trip 1\n";

pub(super) const FIRST_LINE: &str =
    "@1711958400/T1/28800/1/20240401\t2024-04-01 08:00:00+00:00\tS1\t10\t\ts\n";

pub(super) const SHEET: &str = "== R1 - 20240401\ntrip\tT1\nS1\t08:00:00\nS2\t08:10:00\n";

// A feed of three stops and one trip, which runs on 2024-04-01 alone.
const FEED: &[(&str, &str)] = &[
    (
        "agency.txt",
        "agency_name,agency_url,agency_timezone\nMetro,http://m.example,UTC\n",
    ),
    (
        "stops.txt",
        "stop_id,stop_name,stop_lat,stop_lon\n\
S1,Mill,52.5,13.4\n\
S2,Lake,52.6,13.5\n\
S3,Hill,52.7,13.6\n",
    ),
    (
        "routes.txt",
        "route_id,route_short_name,route_type\nR1,10,3\n",
    ),
    ("trips.txt", "route_id,service_id,trip_id\nR1,C1,T1\n"),
    (
        "stop_times.txt",
        "trip_id,arrival_time,departure_time,stop_id,stop_sequence\n\
T1,08:00:00,08:00:00,S1,1\n\
T1,08:10:00,08:10:00,S2,2\n",
    ),
    (
        "calendar.txt",
        "service_id,monday,tuesday,wednesday,thursday,friday,saturday,sunday,start_date,end_date\n\
C1,1,1,1,1,1,1,1,20240401,20240401\n",
    ),
];

// The words that ask for a board of the feed on the day of its trip.
pub(super) fn asked<'w>(dir: &'w str, zone: &'w str, stop: &'w str) -> [&'w str; 11] {
    [
        "gtfs", "board", dir, "--zone", zone, "--stop", stop, "--from", "20240401", "--until",
        "20240402",
    ]
}

// The words that ask for a board of the feed with one more option.
pub(super) fn asked_with<'w>(option: &'w str, value: &'w str) -> [&'w str; 13] {
    [
        "gtfs", "board", "f1", "--zone", "z1", "--stop", "S1", "--from", "20240401", "--until",
        "20240402", option, value,
    ]
}

// The words that ask for boards.
pub(super) fn boards_asked<'w>(dir: &'w str, zone: &'w str, requests: &'w str) -> [&'w str; 7] {
    [
        "gtfs",
        "boards",
        dir,
        "--zone",
        zone,
        "--requests",
        requests,
    ]
}

// The words that ask for a timetable on the day of the feed's trip.
pub(super) fn timetable_asked<'w>(dir: &'w str, route: &'w str) -> [&'w str; 7] {
    [
        "gtfs",
        "timetable",
        dir,
        "--route",
        route,
        "--date",
        "20240401",
    ]
}

// A source whose bytes are all the same.
#[derive(Clone, Copy)]
struct Same(u8);

impl RandomSource for Same {
    fn fill_bytes(&self, buf: &mut [u8]) -> io::Result<()> {
        for byte in buf {
            *byte = self.0;
        }
        Ok(())
    }
}

// The random state that comes of such bytes.
pub(super) fn state_of(byte: u8) -> io::Result<RandomState> {
    RandomState::new(&Same(byte))
}

// The same random state at each call.
pub(super) fn fixed() -> io::Result<RandomState> {
    state_of(0)
}

// The feed in the folder f1, and in the folder `.` the zone file z1, of UTC.
pub(super) fn folders(alloc: Global) -> Result<MemoryFolders, OutOfMemory> {
    filled(alloc, LIMIT, None)
}

// The same on a device that reads no file of more bytes.
pub(super) fn folders_within(alloc: Global, limit: u64) -> Result<MemoryFolders, OutOfMemory> {
    filled(alloc, limit, None)
}

// The same, of whose calls the one with this number, from 1, fails.
pub(super) fn folders_failing_at(alloc: Global, call: u64) -> Result<MemoryFolders, OutOfMemory>
    requires { call < 2 ^ 64 - 1 }
{
    filled(alloc, LIMIT, Some(call))
}

fn filled(alloc: Global, limit: u64, fail: Option<u64>) -> Result<MemoryFolders, OutOfMemory>
    requires { ForSome fail (λ call. call < 2 ^ 64 - 1) }
{
    let mut folders = MemoryFolders::new(alloc, limit, fail);
    put_feed(&mut folders, "f1")?;
    put_utc(alloc, &mut folders, ".", "z1")?;
    Ok(folders)
}

// Puts the files of the feed.
pub(super) fn put_feed(folders: &mut MemoryFolders, dir: &str) -> Result<(), OutOfMemory> {
    for (name, text) in FEED {
        folders.put(dir, name, text.as_bytes())?;
    }
    Ok(())
}

// Puts the zone file of UTC.
pub(super) fn put_utc(
    alloc: Global,
    folders: &mut MemoryFolders,
    folder: &str,
    name: &str,
) -> Result<(), OutOfMemory> {
    let mut file = Vec::new(alloc);
    push_block(&mut file, [0, 0, 0, 0, 1, 4], UTC)?;
    push_block(&mut file, [0, 0, 0, 0, 1, 4], UTC)?;
    file.extend_from_slice(b"\nUTC0\n")?;
    folders.put(folder, name, &file)
}

// Puts the zone file of an island, 137 bytes long,
// where clocks once went from 10 hours behind UTC to 14 before it.
pub(super) fn put_island(
    alloc: Global,
    folders: &mut MemoryFolders,
    name: &str,
) -> Result<(), OutOfMemory> {
    let mut file = Vec::new(alloc);
    push_block(&mut file, [0, 0, 0, 0, 1, 4], UTC)?;
    push_block(&mut file, [0, 0, 0, 1, 2, 8], ISLAND)?;
    file.extend_from_slice(b"\n<+14>-14\n")?;
    folders.put(".", name, &file)
}

// One type of local time, and its designation.
const UTC: &[u8] = b"\0\0\0\0\0\0UTC\0";

// The instant of one change and its type; two types, each by its offset; and their designations.
const ISLAND: &[u8] = b"\0\0\0\0N\xFD\x8B\xA0\x01\xFF\xFFs`\0\0\0\0\xC4\xE0\0\x04-10\0+14\0";

// Appends a header and the data after it. The header counts UT indicators, standard indicators,
// leap seconds, changes, types and bytes of designations (RFC 9636, section 3.1).
fn push_block(file: &mut Vec<u8>, counts: [u8; 6], data: &[u8]) -> Result<(), OutOfMemory> {
    file.extend_from_slice(b"TZif2")?;
    file.extend_from_slice(&[0; 15])?;
    for count in counts {
        file.extend_from_slice(&[0, 0, 0, count])?;
    }
    file.extend_from_slice(data)
}

// The words end with this status, this output and this error output.
pub(super) fn assert_ends(
    rt: &impl Abort,
    alloc: Global,
    folders: &mut MemoryFolders,
    words: &[&str],
    wanted: (u8, &str, &str),
) -> Result<(), Fail> {
    let ended = Ended::of(alloc, fixed()?, folders, words, (ROOM, ROOM))?;
    assert_case(rt, ended.seen()?, wanted, "end", words);
    Ok(())
}

// The start of a text, as far as there is room for it.
pub(super) fn start_of(text: &str, room: usize) -> Result<&str, Fail> {
    let start = text.as_bytes().get(..room).ok_or("past the end")?;
    Ok(str::from_utf8(start)?)
}
