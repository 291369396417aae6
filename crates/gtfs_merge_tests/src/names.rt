//! The names that ids have in a merged feed, and the ids that are joined.

use crate::assertions::{assert_is, assert_text};
use crate::cases::{PLAIN, merged_by};
use crate::report::KINDS;
use crate::worked::RAIL;
use gtfs_fixtures::{FileText, feed_with};
use gtfs_merge::{Kind, Merged, Names, Side};
use std::alloc::Global;
use std::process::Abort;
use std::random::RandomSource;
use std::test::Fail;

// What ids become where the agencies differ, and a mark for those that the feed does not have.
const WANTED: [(Side, Kind, &str, &str); 14] = [
    (Side::A, Kind::Agency, "", "agency_merged_1"),
    (Side::B, Kind::Agency, "", "agency_merged_2"),
    (Side::A, Kind::Agency, "agency_merged_1", "no id"),
    (Side::A, Kind::Route, "R1", "R1"),
    (Side::B, Kind::Route, "R1", "R1_merged_1"),
    (Side::B, Kind::Route, "R1_merged_1", "no id"),
    (Side::A, Kind::Trip, "T1", "T1"),
    (Side::B, Kind::Trip, "T1", "T1_merged_1"),
    (Side::B, Kind::Trip, "", "no id"),
    (Side::A, Kind::Stop, "S1", "S1"),
    (Side::B, Kind::Stop, "S3", "S3"),
    (Side::A, Kind::Stop, "T1", "no id"),
    (Side::B, Kind::Service, "C1", "C1"),
    (Side::B, Kind::Service, "c1", "no id"),
];

// The merge of the small dataset and a change to it.
fn merged_with<R: Abort + RandomSource>(
    rt: &R,
    alloc: Global,
    files: &[FileText],
) -> Result<Merged, Fail> {
    let a = feed_with(rt, alloc, &[])?;
    let b = feed_with(rt, alloc, files)?;
    merged_by(rt, alloc, (&a, &b), PLAIN)
}

// Each id of a side and a kind has its name under its number too.
fn assert_numbered(
    rt: &impl Abort,
    names: &Names,
    side: Side,
    kind: Kind,
    wanted: &[&'static str],
) {
    let ids = names.ids(side, kind);
    assert_is(rt, ids.len(), wanted.len(), "ids");
    for (number, id) in ids.iter().enumerate() {
        let name = names.by_number(side, kind, number);
        let wanted = wanted.get(number).copied().unwrap_or("no name");
        assert_is(rt, name, wanted, id.as_str());
    }
}

// The names of the ids of a side and a kind by their numbers.
const NUMBERED: [(Side, Kind, &[&str]); 4] = [
    (Side::A, Kind::Stop, &["S1", "S2", "S3"]),
    (Side::A, Kind::Trip, &["T1"]),
    (Side::B, Kind::Trip, &["T1_merged_1"]),
    (Side::B, Kind::Agency, &["agency_merged_2"]),
];

#[test]
fn an_id_has_a_name_on_each_side(rt: HostRuntime) -> Result<(), Fail> {
    let merged = merged_with(&rt, rt.alloc(), &[RAIL])?;
    for (side, kind, id, wanted) in WANTED {
        let name = merged.names.of(side, kind, id).unwrap_or("no id");
        assert_is(&rt, name, wanted, id);
    }
    for (side, kind, wanted) in NUMBERED {
        assert_numbered(&rt, &merged.names, side, kind, wanted);
    }
    Ok(())
}

// The joined ids of each kind on a line.
fn joined_ids(alloc: Global, names: &Names) -> Result<String, Fail> {
    let mut text = String::new(alloc);
    for (kind, word) in KINDS {
        text.push_str(word)?;
        for id in names.joined(kind) {
            text.push_str(" ")?;
            text.push_str(id.as_str())?;
        }
        text.push_str("\n")?;
    }
    Ok(text)
}

// The joined ids of the small dataset and a change to it: the route and the trip hang on the agency.
const JOINED: [(&[FileText], &str); 2] = [
    (
        &[],
        "agency \nstop S1 S2 S3\nroute R1\nservice C1\ntrip T1\n",
    ),
    (&[RAIL], "agency\nstop S1 S2 S3\nroute\nservice C1\ntrip\n"),
];

#[test]
fn joined_ids_stand_by_their_bytes(rt: HostRuntime) -> Result<(), Fail> {
    for (files, wanted) in JOINED {
        let merged = merged_with(&rt, rt.alloc(), files)?;
        assert_text(
            &rt,
            joined_ids(rt.alloc(), &merged.names),
            wanted,
            "joined ids",
        )?;
    }
    Ok(())
}
