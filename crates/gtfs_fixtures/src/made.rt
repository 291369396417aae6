//! Datasets by the throw of dice:
//! trips at the same seconds, past midnight, with gaps, periods, directions and exceptions.

use crate::dataset::{FEED, FileText, put_all, read_first};
use gtfs_feed::Feed;
use gtfs_field::OutOfMemory;
use gtfs_table::MemoryFolders;
use std::alloc::Global;
use std::random::RandomSource;
use std::test::Fail;

/// The stops of a made dataset: a station, its two platforms, and two others.
pub const STOPS: [&str; 5] = ["P", "P1", "P2", "Q", "R"];

const STOP_TEXT: &str = "stop_id,stop_name,stop_lat,stop_lon,location_type,parent_station\n\
Q,Quay,52.5,13.4,,\nP2,Park,52.6,13.5,,P\nP,Park,52.6,13.5,1,\nP1,Park,52.6,13.5,0,P\nR,Road,52.7,13.6,,\n";

const ROUTES: &str = "route_id,route_short_name,route_long_name,route_type\nR2,,Long,3\nR1,10,,3\n";

const CALENDAR: &str =
    "service_id,monday,tuesday,wednesday,thursday,friday,saturday,sunday,start_date,end_date\n";

// How many trips there are.
const TRIPS: u64 = 12;

// How many services: the last has no row in calendar.txt.
const SERVICES: u64 = 4;

// How many dates are spoken of, from 2011-12-24 on.
const DATES: u64 = 16;

// Dice, by a plain sequence of numbers.
#[derive(Drop)]
struct Dice {
    state: u64,
}

impl Dice {
    fn roll(&mut self, sides: u64) -> u64 {
        self.state = self.state.wrapping_mul(6_364_136_223_846_793_005);
        self.state = self.state.wrapping_add(1_442_695_040_888_963_407);
        (self.state >> 33).checked_rem(sides).unwrap_or(0)
    }

    fn is_one_of(&mut self, sides: u64) -> bool {
        self.roll(sides) == 0
    }
}

/// The feed of a made dataset, another for each number.
pub fn made_feed<R: RandomSource>(rt: &R, alloc: Global, number: u64) -> Result<Feed, Fail> {
    made_feed_with(rt, alloc, number, &[])
}

/// The feed of a made dataset with these files in place of those with their names.
pub fn made_feed_with<R: RandomSource>(
    rt: &R,
    alloc: Global,
    number: u64,
    changes: &[FileText],
) -> Result<Feed, Fail> {
    read_first(rt, alloc, made_folders(alloc, number, changes)?)
}

// Folders with a dataset in the folder f1, another for each number, and these changes to it.
fn made_folders(
    alloc: Global,
    number: u64,
    changes: &[FileText],
) -> Result<MemoryFolders, OutOfMemory> {
    let mut folders = MemoryFolders::new(alloc, 100_000, None);
    put_dataset(alloc, &mut folders, number, changes)?;
    Ok(folders)
}

fn put_dataset(
    alloc: Global,
    folders: &mut MemoryFolders,
    number: u64,
    changes: &[FileText],
) -> Result<(), OutOfMemory> {
    put_all(folders, &FEED)?;
    put_all(folders, &[("stops.txt", STOP_TEXT), ("routes.txt", ROUTES)])?;
    put_made(alloc, folders, &mut Dice { state: number })?;
    put_all(folders, changes)
}

// Puts the files that are made by throws of dice.
fn put_made(
    alloc: Global,
    folders: &mut MemoryFolders,
    dice: &mut Dice,
) -> Result<(), OutOfMemory> {
    put(folders, "calendar.txt", calendar(alloc, dice))?;
    put(folders, "calendar_dates.txt", calendar_dates(alloc, dice))?;
    put(folders, "trips.txt", trips(alloc, dice))?;
    put(folders, "stop_times.txt", stop_times(alloc, dice))?;
    put(folders, "frequencies.txt", frequencies(alloc, dice))
}

// Puts a file, if its text was made.
fn put(
    folders: &mut MemoryFolders,
    name: &str,
    text: Result<String, OutOfMemory>,
) -> Result<(), OutOfMemory> {
    let text = text?;
    folders.put("f1", name, text.as_bytes())
}

// Adds a text, if it was made.
fn push(text: &mut String, made: Result<String, OutOfMemory>) -> Result<(), OutOfMemory> {
    let made = made?;
    text.push_str(&made)?;
    Ok(())
}

// The date so many days after 2011-12-24, at most 38.
fn date(day: u64) -> u64 {
    if day < 8 {
        day.saturating_add(20_111_224)
    } else {
        day.saturating_add(20_120_093)
    }
}

fn calendar(alloc: Global, dice: &mut Dice) -> Result<String, OutOfMemory> {
    let mut text = String::from_str(alloc, CALENDAR)?;
    for service in 1..SERVICES {
        push_week(alloc, dice, service, &mut text)?;
    }
    Ok(text)
}

fn push_week(
    alloc: Global,
    dice: &mut Dice,
    service: u64,
    text: &mut String,
) -> Result<(), OutOfMemory> {
    push(text, format!(in alloc; "C{service}"))?;
    for _ in 0..7 {
        text.push_str(if dice.is_one_of(3) { ",0" } else { ",1" })?;
    }
    let first = date(dice.roll(6));
    let last = date(dice.roll(8).saturating_add(8));
    push(text, format!(in alloc; ",{first},{last}\n"))
}

// Each service has an exception, so that each is there.
fn calendar_dates(alloc: Global, dice: &mut Dice) -> Result<String, OutOfMemory> {
    let mut text = String::from_str(alloc, "service_id,date,exception_type\n")?;
    for service in 1..=SERVICES {
        for day in 0..DATES {
            if day == service || dice.is_one_of(6) {
                push_exception(alloc, dice, (service, day), &mut text)?;
            }
        }
    }
    Ok(text)
}

fn push_exception(
    alloc: Global,
    dice: &mut Dice,
    (service, day): (u64, u64),
    text: &mut String,
) -> Result<(), OutOfMemory> {
    let exception = if dice.is_one_of(2) { "1" } else { "2" };
    push(
        text,
        format!(in alloc; "C{service},{},{exception}\n", date(day)),
    )
}

fn trips(alloc: Global, dice: &mut Dice) -> Result<String, OutOfMemory> {
    let header = "trip_id,route_id,service_id,trip_headsign,direction_id\n";
    let mut text = String::from_str(alloc, header)?;
    for trip in 0..TRIPS {
        push_trip(alloc, dice, trip, &mut text)?;
    }
    Ok(text)
}

fn push_trip(
    alloc: Global,
    dice: &mut Dice,
    trip: u64,
    text: &mut String,
) -> Result<(), OutOfMemory> {
    let route = if dice.is_one_of(2) { "R1" } else { "R2" };
    let service = dice.roll(SERVICES).saturating_add(1);
    let headsign = if dice.is_one_of(2) { "" } else { "Town" };
    let direction = direction_of(trip);
    push(
        text,
        format!(in alloc; "T{trip},{route},C{service},{headsign},{direction}\n"),
    )
}

// None, 0 and 1 in turn, two trips each.
fn direction_of(trip: u64) -> &'static str {
    match trip / 2 % 3 {
        0 => "",
        1 => "0",
        _ => "1",
    }
}

fn stop_times(alloc: Global, dice: &mut Dice) -> Result<String, OutOfMemory> {
    let header =
        "trip_id,stop_sequence,stop_id,arrival_time,departure_time,stop_headsign,pickup_type\n";
    let mut text = String::from_str(alloc, header)?;
    for trip in 0..TRIPS {
        push_stops(alloc, dice, trip, &mut text)?;
    }
    Ok(text)
}

// The stop times of a trip: two to five, of which the first and the last have a time.
fn push_stops(
    alloc: Global,
    dice: &mut Dice,
    trip: u64,
    text: &mut String,
) -> Result<(), OutOfMemory> {
    let last = dice.roll(4).saturating_add(1);
    let mut sequence = dice.roll(3);
    let mut seconds = dice.roll(40).saturating_mul(2_400);
    for position in 0..=last {
        let is_between = position > 0 && position < last;
        push_stop(alloc, dice, (trip, sequence), (seconds, is_between), text)?;
        sequence = sequence.saturating_add(dice.roll(3)).saturating_add(1);
        seconds = seconds.saturating_add(dice.roll(3).saturating_mul(1_200));
    }
    Ok(())
}

// A stop time, which may have no time where it stands between others.
fn push_stop(
    alloc: Global,
    dice: &mut Dice,
    (trip, sequence): (u64, u64),
    (seconds, is_between): (u64, bool),
    text: &mut String,
) -> Result<(), OutOfMemory> {
    let stop = stop_of(dice);
    push(text, format!(in alloc; "T{trip},{sequence},{stop},"))?;
    if is_between && dice.is_one_of(3) {
        text.push_str(",")?;
    } else {
        push_times(alloc, seconds, text)?;
    }
    let headsign = if dice.is_one_of(3) { "Hill" } else { "" };
    let pickup = if dice.is_one_of(4) { "1" } else { "" };
    push(text, format!(in alloc; ",{headsign},{pickup}\n"))
}

// An arrival and a departure at a second.
fn push_times(alloc: Global, seconds: u64, text: &mut String) -> Result<(), OutOfMemory> {
    let (hours, minutes) = (seconds / 3_600, seconds / 60 % 60);
    push(
        text,
        format!(in alloc; "{hours}:{minutes:02}:00,{hours}:{minutes:02}:00"),
    )
}

// A stop at which trips may stop.
fn stop_of(dice: &mut Dice) -> &'static str {
    match dice.roll(4) {
        0 => "P1",
        1 => "P2",
        2 => "Q",
        _ => "R",
    }
}

// One or two periods of every third trip.
fn frequencies(alloc: Global, dice: &mut Dice) -> Result<String, OutOfMemory> {
    let header = "trip_id,start_time,end_time,headway_secs,exact_times\n";
    let mut text = String::from_str(alloc, header)?;
    for third in 0..4u64 {
        push_periods(alloc, dice, third.saturating_mul(3), &mut text)?;
    }
    Ok(text)
}

fn push_periods(
    alloc: Global,
    dice: &mut Dice,
    trip: u64,
    text: &mut String,
) -> Result<(), OutOfMemory> {
    let mut start = dice.roll(28);
    for exact in 0..=dice.roll(2) {
        let end = start.saturating_add(dice.roll(4)).saturating_add(1);
        let headway = dice.roll(4).saturating_mul(600).saturating_add(600);
        push(
            text,
            format!(in alloc; "T{trip},{start}:00:00,{end}:00:00,{headway},{exact}\n"),
        )?;
        start = end;
    }
    Ok(())
}
