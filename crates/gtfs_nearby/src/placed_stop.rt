ghost use Rattle.std.specs.Prelude.{◌≡◌, ◌+◌, ◌≤◌, pos, ◌+ℤ◌, option_map};
ghost use Rattle.gtfs_nearby.specs.PlacedStops.{IsPlacedStopIfAny, group_cmp};

use gtfs_field::Coord;
use gtfs_rows::{Stop, StopNo};
use std::cmp::Ordering;

// A stop that has a name and a position: what near stops have in common, and where it is.
#[derive(Clone, Copy)]
pub(crate) struct PlacedStop<'a> {
    pub name: &'a str,
    // The number of the location type.
    pub kind: u32,
    pub parent: Option<StopNo>,
    // Units of 10^-9 degree above -180 degrees.
    pub lat: u64,
    pub lon: u64,
}

impl<'a> PlacedStop<'a> {
    // That of a stop under this parent, if it has a name and both coordinates.
    pub fn of(stop: &'a Stop, parent: Option<StopNo>) -> Option<PlacedStop<'a>>
        ensures { IsPlacedStopIfAny stop.now (option_map (λ n. n.0) parent) result }
    {
        let name = stop.stop_name.as_ref()?;
        let lat = stop.stop_lat?;
        let lon = stop.stop_lon?;
        Some(PlacedStop {
            name: name.as_str(),
            kind: stop.location_type.number(),
            parent,
            lat: units_above(lat),
            lon: units_above(lon),
        })
    }
}

// By name, type and parent. Near stops are equal in all three.
pub(crate) fn group_order(a: &PlacedStop<'_>, b: &PlacedStop<'_>) -> Ordering
    ensures { result ≡ group_cmp a.now b.now }
{
    a.name
        .cmp(b.name)
        .then(a.kind.cmp(&b.kind))
        .then(a.parent.cmp(&b.parent))
}

// Units of 10^-9 degree from -180 degrees on.
fn units_above(coord: Coord) -> u64
    ensures value { pos result ≡ coord +ℤ pos 180_000_000_000 }
    ensures bound { result ≤ 360_000_000_000 }
{
    (coord.nanodegrees() + 180_000_000_000) as u64
}
