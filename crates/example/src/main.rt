//! A program to start from. It checks the feeds of two folders, prints the first departures of a
//! day at a stop of one of them, and writes both as one feed into a third folder.
//!
//! Above each call of the library stands what it does, and what it means where it is refused. Each
//! may also be refused because memory ran out.
#![tactic(auto)]

use anyhow::{Context, Result, bail, ensure};
use gtfs_board::{Board, Span, Times, write_page};
use gtfs_days::{LAST_SERVICE_DAY, Zone};
use gtfs_feed::Feed;
use gtfs_field::read_date;
use gtfs_merge::{Kind, Options, merge};
use gtfs_rules::{Report, check};
use gtfs_table::{DiskFolders, File, Folders, Tables, WriteOut};
use std::hash::RandomState;
use std::{fs, io};

fn main(rt: HostRuntime) -> Result<()> {
    let ferry = read_feed(&rt, "ferry")?;
    let tram = read_feed(&rt, "tram")?;
    let zone = read_zone(&rt, "central-europe")?;
    print_departures(&rt, &ferry, &zone, "HAR")?;
    write_both(&rt, &ferry, &tram, "both")
}

/// The feed in a folder, after its problems are printed.
fn read_feed(rt: &HostRuntime, dir: &str) -> Result<Feed> {
    let alloc = rt.alloc();
    let mut disk = DiskFolders::new(rt);
    // Reads the files of a folder. Refused: it is not there, or one of them cannot be read.
    let tables = Tables::read(alloc, &mut disk, dir).context(format_args!("reading {dir}"))?;
    // Finds every problem of these files. It has no other refusal.
    let report = check(alloc, &tables)?;
    print_problems(rt, &report)?;
    // Hands the files on where no problem is an error. Refused: one is.
    let Ok(passed) = report.passed() else {
        bail!("{dir} has errors");
    };
    // Makes a feed of them. It has no other refusal.
    let feed = Feed::new(alloc, RandomState::new(rt)?, &passed)?;
    Ok(feed)
}

/// Prints the problems of a report, a line each.
fn print_problems(rt: &HostRuntime, report: &Report<'_>) -> Result<()> {
    for problem in report.problems() {
        let (code, file, row) = (problem.code, problem.file.as_str(), problem.row);
        println!(rt; "{} {file}:{row} {}", code.name(), code.text())?;
    }
    Ok(())
}

/// The time zone in a file.
fn read_zone(rt: &HostRuntime, path: &str) -> Result<Zone> {
    let bytes = fs::read(rt, path).context(format_args!("reading {path}"))?;
    // Reads a zone. Refused: the bytes are no zone file.
    let zone = Zone::read(rt.alloc(), &bytes)?;
    Ok(zone)
}

/// Prints the first three departures at a stop on 2 April 2024.
fn print_departures(rt: &HostRuntime, feed: &Feed, zone: &Zone, stop: &str) -> Result<()> {
    let alloc = rt.alloc();
    // Reads a date. Refused: the text is none.
    let day = read_date("20240402")?;
    ensure!(day.number() <= LAST_SERVICE_DAY, "no services run in 9999");
    // Tells from which instant the times of a service day count. It is never refused.
    let from = zone.origin(alloc, day)?;
    let until = from + 24 * 3_600;
    let span = Span { from, until };
    // Opens the board of a stop. Refused: there is no such stop, or the span is none.
    let mut board = Board::open(alloc, feed, zone, stop, span, None, Times::Given)?;
    let out = &mut WriteOut::new(io::writer(rt));
    // Prints the next lines of a board, at most three. Refused: the output failed.
    write_page(alloc, &mut board, 3, out)?;
    Ok(())
}

/// Writes two feeds as one into a folder.
fn write_both(rt: &HostRuntime, a: &Feed, b: &Feed, dir: &str) -> Result<()> {
    let alloc = rt.alloc();
    let random = RandomState::new(rt)?;
    // Makes one feed of two. Refused: their zones differ, or a file would be over the limit.
    let merged = merge(alloc, random, a, b, &Options::default())?;
    let trips = merged.feed.trip_count();
    let joined = merged.names.joined(Kind::Trip).len();
    println!(rt; "{dir}: {trips} trips, {joined} joined")?;
    // Makes the files of a feed. It has no other refusal.
    let tables = merged.feed.to_tables(alloc)?;
    write_tables(rt, &tables, dir)
}

/// Writes the files of a feed into a folder.
fn write_tables(rt: &HostRuntime, tables: &Tables, dir: &str) -> Result<()> {
    let alloc = rt.alloc();
    let mut disk = DiskFolders::new(rt);
    for file in File::ALL {
        // Gives the text of a file that is there. It has no other refusal.
        if let Some(text) = tables.write(alloc, file)? {
            // Writes a file, and makes its folder. Refused: it cannot be written.
            disk.write(alloc, dir, file.name(), &text)?;
        }
    }
    Ok(())
}
