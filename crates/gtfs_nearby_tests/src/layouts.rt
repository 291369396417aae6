//! Seven hundred stops in each of the ways that make a search slow, beside a plain slow search.

use crate::assertions::assert_is;
use crate::spots::{Spot, stop_no};
use gtfs_field::{Coord, OutOfMemory};
use gtfs_nearby::Nearby;
use gtfs_rows::{LocationType, Stop, StopNo};
use std::alloc::Global;
use std::process::Abort;
use std::test::Fail;

// How many stops each feed has.
const COUNT: i64 = 700;

const DEGREE: u64 = 1_000_000_000;

const LAT: i64 = 52_500_000_000;

const LON: i64 = 13_400_000_000;

// A coordinate of stops: what it is at least, how many units a throw of dice adds at most, and what
// each stop before, and each second one, adds.
#[derive(Clone, Copy)]
struct Line {
    from: i64,
    sides: u64,
    step: i64,
    turn: i64,
}

const fn at(from: i64) -> Line {
    spread(from, 1)
}

const fn spread(from: i64, sides: u64) -> Line {
    Line {
        from,
        sides,
        step: 0,
        turn: 0,
    }
}

// How the stops of both feeds lie, and how many names, types and parents they have.
#[derive(Clone, Copy)]
struct Layout {
    what: &'static str,
    near: u32,
    kinds: u64,
    a: (Line, Line),
    b: (Line, Line),
}

fn layouts() -> [Layout; 12] {
    let wide = (spread(LAT, 2 * DEGREE), spread(LON, 2 * DEGREE));
    let crowd = (spread(LAT, 1000), spread(LON, 1000));
    let falling = Line {
        from: LAT,
        sides: 1,
        step: -20_000,
        turn: 0,
    };
    [
        Layout {
            what: "many kinds",
            near: 10_000,
            kinds: 6,
            a: wide,
            b: wide,
        },
        Layout {
            what: "many kinds in a crowd",
            near: 0,
            kinds: 6,
            a: crowd,
            b: crowd,
        },
        Layout {
            what: "wide, 1",
            near: 1,
            kinds: 1,
            a: wide,
            b: wide,
        },
        Layout {
            what: "wide, 10,000",
            near: 10_000,
            kinds: 1,
            a: wide,
            b: wide,
        },
        Layout {
            what: "wide, 500,000",
            near: 500_000,
            kinds: 1,
            a: wide,
            b: wide,
        },
        Layout {
            what: "wide, the most",
            near: 2_147_483_647,
            kinds: 1,
            a: wide,
            b: wide,
        },
        Layout {
            what: "one spot",
            near: 1,
            kinds: 1,
            a: (at(LAT), at(LON)),
            b: (at(LAT + 1000), at(LON)),
        },
        Layout {
            what: "one spot each",
            near: 1,
            kinds: 1,
            a: (at(LAT), at(LON)),
            b: (at(LAT + 1001), at(LON)),
        },
        Layout {
            what: "one latitude",
            near: 1000,
            kinds: 1,
            a: (at(LAT), spread(LON, 2 * DEGREE)),
            b: (at(LAT), spread(LON, 2 * DEGREE)),
        },
        Layout {
            what: "two crowds",
            near: 1,
            kinds: 1,
            a: crowd,
            b: (spread(LAT + 1500, 1000), spread(LON, 1000)),
        },
        Layout {
            what: "east and west",
            near: 1_000_000,
            kinds: 1,
            a: (
                spread(LAT, 1000),
                Line {
                    from: LON,
                    sides: 1000,
                    step: 0,
                    turn: 1_000_000_000,
                },
            ),
            b: (spread(LAT, 1000), spread(LON + 500_000, 1_000_000_000)),
        },
        Layout {
            what: "numbers against the order",
            near: 2_000,
            kinds: 1,
            a: (falling, falling),
            b: (falling, spread(LAT - 40_000_000, 40_000_000)),
        },
    ]
}

#[test]
fn nearby_finds_what_a_slow_search_finds(rt: HostRuntime) -> Result<(), Fail> {
    let mut dice = Dice { state: 1 };
    for layout in layouts() {
        assert_layout(&rt, rt.alloc(), &mut dice, layout)?;
    }
    Ok(())
}

// The stops of a layout, and those of its second feed with what the slow search finds of them.
fn assert_layout(
    rt: &impl Abort,
    alloc: Global,
    dice: &mut Dice,
    layout: Layout,
) -> Result<(), Fail> {
    let a = made(alloc, dice, layout.a, layout.kinds)?;
    let b = made(alloc, dice, layout.b, layout.kinds)?;
    assert_all(rt, alloc, dice, layout, (a.as_slice(), b.as_slice()))
}

fn assert_all(
    rt: &impl Abort,
    alloc: Global,
    dice: &mut Dice,
    layout: Layout,
    (a, b): (&[Stop], &[Stop]),
) -> Result<(), Fail> {
    let nearby = Nearby::new(alloc, a, layout.near)?;
    for row in b {
        let parent = stop_no(one_of(dice, 3));
        let wanted = plain(a, layout.near, row, parent);
        assert_is(rt, nearby.find(row, parent), wanted, layout.what);
    }
    Ok(())
}

// The least number of a near stop, by a look at each.
fn plain(stops: &[Stop], near: u32, row: &Stop, parent: Option<StopNo>) -> Option<StopNo> {
    for (number, stop) in stops.iter().enumerate() {
        if is_alike(stop, row)
            && is_inside(stop, row, parent)
            && is_close(near, stop.stop_lat, row.stop_lat)
            && is_close(near, stop.stop_lon, row.stop_lon)
        {
            return Some(StopNo(number));
        }
    }
    None
}

fn is_alike(stop: &Stop, row: &Stop) -> bool {
    match (&stop.stop_name, &row.stop_name) {
        (Some(name), Some(other)) => {
            name.as_str() == other.as_str() && stop.location_type == row.location_type
        }
        _ => false,
    }
}

fn is_inside(stop: &Stop, row: &Stop, parent: Option<StopNo>) -> bool {
    match row.parent_station {
        None => stop.parent_station.is_none(),
        Some(_) => stop.parent_station.is_some() && stop.parent_station == parent,
    }
}

fn is_close(near: u32, coord: Option<Coord>, other: Option<Coord>) -> bool {
    match (coord, other) {
        (Some(coord), Some(other)) => {
            (coord.nanodegrees() - other.nanodegrees()).unsigned_abs() <= u64::from(near) * 1000
        }
        _ => false,
    }
}

// Stops that lie so. With several kinds they differ in name, type and parent,
// and some lack a name or a coordinate.
fn made(
    alloc: Global,
    dice: &mut Dice,
    lines: (Line, Line),
    kinds: u64,
) -> Result<Vec<Stop>, OutOfMemory> {
    let mut stops = Vec::new(alloc);
    for number in 0..COUNT {
        let spot = thrown(dice, lines, kinds, number);
        stops.push(spot.stop(alloc)?)?;
    }
    Ok(stops)
}

fn thrown(dice: &mut Dice, (lat, lon): (Line, Line), kinds: u64, number: i64) -> Spot {
    Spot {
        name: name(dice.roll(kinds)),
        kind: kind(dice.roll(kinds)),
        parent: one_of(dice, kinds),
        lat: Some(dice.coordinate(lat, number)),
        lon: Some(dice.coordinate(lon, number)),
    }
}

fn name(roll: u64) -> Option<&'static str> {
    match roll {
        0 => Some("Mill"),
        1 => Some("Mill Lane"),
        2 => Some("Lake"),
        3 => Some("M"),
        4 => None,
        _ => Some("Mill"),
    }
}

fn kind(roll: u64) -> LocationType {
    match roll {
        1 => LocationType::Node,
        2 => LocationType::Entrance,
        _ => LocationType::Stop,
    }
}

fn one_of(dice: &mut Dice, kinds: u64) -> Option<usize> {
    match dice.roll(kinds) {
        0 => None,
        1 => Some(0),
        2 => Some(1),
        _ => None,
    }
}

// Dice, by a plain sequence of numbers.
#[derive(Drop)]
struct Dice {
    state: u64,
}

impl Dice {
    fn roll(&mut self, sides: u64) -> u64 {
        self.state = self.state.wrapping_mul(6_364_136_223_846_793_005);
        self.state = self.state.wrapping_add(1_442_695_040_888_963_407);
        (self.state >> 31).checked_rem(sides).unwrap_or(0)
    }

    fn coordinate(&mut self, line: Line, number: i64) -> i64 {
        let thrown = i64::try_from(self.roll(line.sides)).unwrap_or(0);
        line.from
            .wrapping_add(thrown)
            .wrapping_add(line.step.wrapping_mul(number))
            .wrapping_add(line.turn.wrapping_mul(number % 2))
    }
}
