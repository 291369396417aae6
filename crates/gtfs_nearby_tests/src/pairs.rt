//! Whether one stop is near another, by tables.

use crate::assertions::assert_is;
use crate::spots::{Spot, stop_no, stops_of};
use gtfs_field::OutOfMemory;
use gtfs_nearby::Nearby;
use gtfs_rows::{LocationType, Stop, StopNo};
use std::alloc::Global;
use std::process::Abort;
use std::test::Fail;

const MILL: Spot = Spot {
    name: Some("Mill"),
    kind: LocationType::Stop,
    parent: None,
    lat: Some(52_500_000_000),
    lon: Some(13_400_000_000),
};

// How far a stop of B lies to the north and to the east in units,
// and whether it is near where so many millionths are.
const MOVED: &[(&str, u32, i64, i64, bool)] = &[
    ("the same place", 0, 0, 0, true),
    ("half a millionth north, none allowed", 0, 500, 0, false),
    ("half a millionth north", 1, 500, 0, true),
    ("a millionth north", 1, 1000, 0, true),
    ("a millionth south", 1, -1000, 0, true),
    ("a millionth east", 1, 0, 1000, true),
    ("a millionth west", 1, 0, -1000, true),
    ("a millionth both ways", 1, 1000, -1000, true),
    ("a unit more north", 1, 1001, 0, false),
    ("a unit more south", 1, -1001, 0, false),
    ("a unit more east", 1, 0, 1001, false),
    ("a unit more west", 1, 0, -1001, false),
    (
        "far away",
        2_147_483_647,
        -142_000_000_000,
        150_000_000_000,
        true,
    ),
];

#[test]
fn stops_are_near_up_to_a_distance(rt: HostRuntime) -> Result<(), Fail> {
    for (what, near, north, east, is_near) in MOVED {
        let moved = Spot {
            lat: Some(52_500_000_000 + *north),
            lon: Some(13_400_000_000 + *east),
            ..MILL
        };
        assert_near(&rt, rt.alloc(), what, *near, (MILL, moved), None, *is_near)?;
    }
    Ok(())
}

// A stop of A and one of B at one place, what the parent of B's became in A,
// and whether they are near.
const ALIKE: &[(&str, Spot, Spot, Option<usize>, bool)] = &[
    ("equal", MILL, MILL, None, true),
    (
        "another name",
        MILL,
        Spot {
            name: Some("Mil"),
            ..MILL
        },
        None,
        false,
    ),
    ("no name", MILL, Spot { name: None, ..MILL }, None, false),
    (
        "no names",
        Spot { name: None, ..MILL },
        Spot { name: None, ..MILL },
        None,
        false,
    ),
    (
        "a station",
        MILL,
        Spot {
            kind: LocationType::Station,
            ..MILL
        },
        None,
        false,
    ),
    ("no latitude", MILL, Spot { lat: None, ..MILL }, None, false),
    (
        "no longitude",
        MILL,
        Spot { lon: None, ..MILL },
        None,
        false,
    ),
    (
        "no places",
        Spot { lat: None, ..MILL },
        Spot { lat: None, ..MILL },
        None,
        false,
    ),
    (
        "inside the same one",
        Spot {
            parent: Some(3),
            ..MILL
        },
        Spot {
            parent: Some(0),
            ..MILL
        },
        Some(3),
        true,
    ),
    (
        "inside another one",
        Spot {
            parent: Some(3),
            ..MILL
        },
        Spot {
            parent: Some(3),
            ..MILL
        },
        Some(0),
        false,
    ),
    (
        "inside one that became nothing",
        Spot {
            parent: Some(3),
            ..MILL
        },
        Spot {
            parent: Some(3),
            ..MILL
        },
        None,
        false,
    ),
    (
        "outside, inside one that became nothing",
        MILL,
        Spot {
            parent: Some(3),
            ..MILL
        },
        None,
        false,
    ),
    (
        "outside, inside one",
        MILL,
        Spot {
            parent: Some(3),
            ..MILL
        },
        Some(3),
        false,
    ),
    (
        "inside one, outside",
        Spot {
            parent: Some(3),
            ..MILL
        },
        MILL,
        None,
        false,
    ),
    (
        "on both sides of the antimeridian",
        Spot {
            lon: Some(180_000_000_000),
            ..MILL
        },
        Spot {
            lon: Some(-180_000_000_000),
            ..MILL
        },
        None,
        false,
    ),
];

#[test]
fn near_stops_are_alike(rt: HostRuntime) -> Result<(), Fail> {
    for (what, a, b, parent, is_near) in ALIKE {
        assert_near(&rt, rt.alloc(), what, 100, (*a, *b), *parent, *is_near)?;
    }
    Ok(())
}

// Whether the second stop is near the first one, once its parent became this.
fn assert_near(
    rt: &impl Abort,
    alloc: Global,
    what: &str,
    near: u32,
    pair: (Spot, Spot),
    parent: Option<usize>,
    is_near: bool,
) -> Result<(), Fail> {
    let found = if is_near { Some(0) } else { None };
    assert_found(rt, alloc, what, near, &[pair.0, pair.1], parent, found)
}

// The number of the stop that is near the last one.
fn assert_found(
    rt: &impl Abort,
    alloc: Global,
    what: &str,
    near: u32,
    spots: &[Spot],
    parent: Option<usize>,
    number: Option<usize>,
) -> Result<(), Fail> {
    let all = stops_of(alloc, spots)?;
    let Some((row, stops)) = all.as_slice().split_last() else {
        panic!(rt; "no stop");
    };
    let found = find(alloc, stops, near, row, stop_no(parent))?;
    assert_is(rt, found, stop_no(number), what);
    Ok(())
}

fn find(
    alloc: Global,
    stops: &[Stop],
    near: u32,
    row: &Stop,
    parent: Option<StopNo>,
) -> Result<Option<StopNo>, OutOfMemory> {
    let nearby = Nearby::new(alloc, stops, near)?;
    Ok(nearby.find(row, parent))
}

const LAKE: Spot = Spot {
    name: Some("Lake"),
    ..MILL
};

// The mill, so many units to the north.
fn moved(north: i64) -> Spot {
    Spot {
        lat: Some(north.wrapping_add(52_500_000_000)),
        ..MILL
    }
}

// Where several are near the least number counts, whatever the order of the places.
#[test]
fn the_least_number_counts(rt: HostRuntime) -> Result<(), Fail> {
    let spots = [moved(2000), LAKE, moved(1000), moved(-1000), MILL, MILL];
    for (near, least) in [(0, 4), (1, 2), (2, 0)] {
        let what = "the least";
        assert_found(&rt, rt.alloc(), what, near, &spots, None, Some(least))?;
    }
    assert_found(&rt, rt.alloc(), "no stops", 1, &[MILL], None, None)
}
