//! Stops by what near ones have in common.

use gtfs_field::{Coord, OutOfMemory, Text};
use gtfs_rows::{LocationType, Stop, StopNo, WheelchairBoarding};
use std::alloc::Global;

/// What decides whether a stop is near another one. Coordinates are in units of 10^-9 degree.
#[derive(Clone, Copy)]
pub(crate) struct Spot {
    pub(crate) name: Option<&'static str>,
    pub(crate) kind: LocationType,
    pub(crate) parent: Option<usize>,
    pub(crate) lat: Option<i64>,
    pub(crate) lon: Option<i64>,
}

impl Spot {
    /// A stop with these values and no others.
    pub(crate) fn stop(self, alloc: Global) -> Result<Stop, OutOfMemory> {
        Ok(Stop {
            stop_id: text(alloc, "S")?,
            stop_code: None,
            stop_name: match self.name {
                Some(name) => Some(text(alloc, name)?),
                None => None,
            },
            tts_stop_name: None,
            stop_desc: None,
            stop_lat: coord(self.lat),
            stop_lon: coord(self.lon),
            stop_url: None,
            location_type: self.kind,
            parent_station: stop_no(self.parent),
            wheelchair_boarding: WheelchairBoarding::Unknown,
            platform_code: None,
        })
    }
}

/// The stops of these places.
pub(crate) fn stops_of(alloc: Global, spots: &[Spot]) -> Result<Vec<Stop>, OutOfMemory> {
    let mut stops = Vec::new(alloc);
    for spot in spots {
        stops.push(spot.stop(alloc)?)?;
    }
    Ok(stops)
}

/// The number of a stop, if there is one.
pub(crate) fn stop_no(number: Option<usize>) -> Option<StopNo> {
    match number {
        Some(number) => Some(StopNo(number)),
        None => None,
    }
}

fn text(alloc: Global, text: &str) -> Result<Text, OutOfMemory> {
    Text::copy_of(alloc, text)
}

// What lies beyond 180 degrees is put there.
fn coord(nanodegrees: Option<i64>) -> Option<Coord> {
    let nanodegrees = nanodegrees?;
    if nanodegrees < -180_000_000_000 {
        return Some(Coord::from_nanodegrees(-180_000_000_000));
    }
    if nanodegrees > 180_000_000_000 {
        return Some(Coord::from_nanodegrees(180_000_000_000));
    }
    Some(Coord::from_nanodegrees(nanodegrees))
}
