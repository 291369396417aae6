ghost use Rattle.std.specs.Prelude.{◌≡◌, ◌≤◌, ◌+◌, ◌*◌};
ghost use Rattle.gtfs_nearby.specs.MapAreas.{area_around, area_joined, area_of, covers, has, meets};

use crate::placed_stop::PlacedStop;

// All places between two latitudes and two longitudes, in units of 10^-9 degree above -180 degrees.
#[derive(Clone, Copy)]
pub(crate) struct Area {
    pub south: u64,
    pub north: u64,
    pub west: u64,
    pub east: u64,
}

impl Area {
    // All places up to so many units away, which is a square.
    pub fn around(place: &PlacedStop<'_>, reach: u64) -> Area
        requires lat { place.now.lat ≤ 360_000_000_000 }
        requires lon { place.now.lon ≤ 360_000_000_000 }
        requires reach { reach ≤ 5_000_000_000_000 }
        ensures { result ≡ area_around place.now reach }
    {
        Area {
            south: place.lat.saturating_sub(reach),
            north: place.lat + reach,
            west: place.lon.saturating_sub(reach),
            east: place.lon + reach,
        }
    }

    // The one place.
    pub fn of(place: &PlacedStop<'_>) -> Area
        ensures { result ≡ area_of place.now }
    {
        Area {
            south: place.lat,
            north: place.lat,
            west: place.lon,
            east: place.lon,
        }
    }

    // The least area that has both.
    pub fn joined(&self, other: &Area) -> Area
        ensures { result ≡ area_joined self.now other.now }
    {
        Area {
            south: self.south.min(other.south),
            north: self.north.max(other.north),
            west: self.west.min(other.west),
            east: self.east.max(other.east),
        }
    }

    pub fn has(&self, place: &PlacedStop<'_>) -> bool
        ensures { result ≡ has self.now place.now }
    {
        self.south <= place.lat
            && place.lat <= self.north
            && self.west <= place.lon
            && place.lon <= self.east
    }

    // Whether some place may be in both.
    pub fn meets(&self, other: &Area) -> bool
        ensures { result ≡ meets self.now other.now }
    {
        self.south <= other.north
            && other.south <= self.north
            && self.west <= other.east
            && other.west <= self.east
    }

    // Whether each place of the other area is in this one.
    pub fn covers(&self, other: &Area) -> bool
        ensures { result ≡ covers self.now other.now }
    {
        self.south <= other.south
            && other.north <= self.north
            && self.west <= other.west
            && other.east <= self.east
    }
}
