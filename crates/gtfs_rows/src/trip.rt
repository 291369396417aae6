ghost use Rattle.std.specs.Prelude.{◌≡◌, IfOk};

use crate::copies::copied_if_any;
use crate::numbers::{RouteNo, ServiceNo};
use crate::row_choices::{BikesAllowed, Direction, WheelchairAccessible};
use gtfs_field::{OutOfMemory, Text};
use std::alloc::Global;

/// A row of `trips.txt` (GTFS Schedule Reference, `trips.txt`).
/// Its stop times and frequencies stand in lists of the feed.
#[derive(Drop)]
pub struct Trip {
    pub route_id: RouteNo,
    pub service_id: ServiceNo,
    pub trip_id: Text,
    pub trip_headsign: Option<Text>,
    pub trip_short_name: Option<Text>,
    pub direction_id: Option<Direction>,
    pub wheelchair_accessible: WheelchairAccessible,
    pub bikes_allowed: BikesAllowed,
}

impl Trip {
    /// The trip under this id, of this route and this service, else the same.
    ///
    /// # Errors
    /// `OutOfMemory` where a text cannot be copied.
    pub fn under(
        &self,
        alloc: Global,
        id: &str,
        route: RouteNo,
        service: ServiceNo,
    ) -> Result<Trip, OutOfMemory>
        ensures { IfOk result (λ other. other
            ≡ record self.now { trip_id = id.now; route_id = route; service_id = service }) }
    {
        Ok(Trip {
            route_id: route,
            service_id: service,
            trip_id: Text::copy_of(alloc, id)?,
            trip_headsign: copied_if_any(alloc, &self.trip_headsign)?,
            trip_short_name: copied_if_any(alloc, &self.trip_short_name)?,
            direction_id: self.direction_id,
            wheelchair_accessible: self.wheelchair_accessible,
            bikes_allowed: self.bikes_allowed,
        })
    }
}
