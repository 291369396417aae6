ghost use Rattle.std.specs.Prelude.{◌≡◌, ◌<◌, IfOk, None, is_some, length, slice_index_or};
ghost use Rattle.gtfs_merge.specs.Twins.{is_joined_at, near_at, of_kind, twin_rows};

use crate::joining::agencies::joined_agencies;
use crate::joining::routes::joined_routes;
use crate::joining::services::joined_services;
use crate::joining::stop_twins::stop_twins;
use crate::joining::stops::joined_flags;
use crate::joining::trips::joined_trips;
use crate::kind::Kind;
use crate::row_numbers::{agency_number, route_number, service_number, stop_number, trip_number};
use crate::sides::Sides;
use gtfs_field::OutOfMemory;
use gtfs_rows::{AgencyNo, RouteNo, ServiceNo, StopNo, TripNo};
use std::alloc::Global;
use std::marker::Model;

// For each row of B, by its number, its twin:
// the row of A that it is joined with, or the stop of A that it is near.
pub(crate) struct Twins {
    agencies: Vec<Option<AgencyNo>>,
    stops: Vec<Option<StopNo>>,
    routes: Vec<Option<RouteNo>>,
    services: Vec<Option<ServiceNo>>,
    trips: Vec<Option<TripNo>>,
    // Whether each stop is joined.
    joined_stops: Vec<bool>,
}

impl Model for Twins {
    ghost use Rattle.std.specs.Prelude.{map, option_map};
    ghost use Rattle.gtfs_merge.specs.Twins.{TwinRows};

    ghost Value = { TwinRows };

    ghost view = { λ t. record {
      agencies = map (option_map (λ n. n.0)) t.agencies.items;
      stops = map (option_map (λ n. n.0)) t.stops.items;
      routes = map (option_map (λ n. n.0)) t.routes.items;
      services = map (option_map (λ n. n.0)) t.services.items;
      trips = map (option_map (λ n. n.0)) t.trips.items;
      joined_stops = t.joined_stops.items;
    } };
}

// Written out, so that a function that lets it go has one call to prove.
impl Drop for Twins {
    fn drop(self) {
        let Twins {
            agencies: _,
            stops: _,
            routes: _,
            services: _,
            trips: _,
            joined_stops: _,
        } = self;
    }
}

impl Twins {
    // The twins of the rows of B.
    pub(crate) fn of_feeds(alloc: Global, sides: &Sides) -> Result<Twins, OutOfMemory>
        ensures { IfOk result (λ twins. twins ≡ twin_rows sides.now) }
    {
        sides.soundness();
        let agencies = joined_agencies(alloc, sides)?;
        let services = joined_services(alloc, sides)?;
        let stops = stop_twins(alloc, sides)?;
        let joined_stops = joined_flags(alloc, sides, stops.as_slice())?;
        let routes = joined_routes(alloc, sides, agencies.as_slice())?;
        let trips = joined_trips(
            alloc,
            sides,
            routes.as_slice(),
            services.as_slice(),
            stops.as_slice(),
        )?;
        Ok(Twins {
            agencies,
            stops,
            routes,
            services,
            trips,
            joined_stops,
        })
    }

    // The number of the twin of the row of a number.
    pub(crate) fn of(&self, kind: Kind, number: usize) -> Option<usize>
        requires { number < length (of_kind self.now kind) }
        ensures { result ≡ slice_index_or (of_kind self.now kind) number None }
    {
        match kind {
            Kind::Agency => agency_number(self.agencies[number]),
            Kind::Stop => stop_number(self.stops[number]),
            Kind::Route => route_number(self.routes[number]),
            Kind::Service => service_number(self.services[number]),
            Kind::Trip => trip_number(self.trips[number]),
        }
    }

    // Whether the row of a number has a twin.
    pub(crate) fn has(&self, kind: Kind, number: usize) -> bool
        requires { number < length (of_kind self.now kind) }
        ensures { result ≡ is_some (slice_index_or (of_kind self.now kind) number None) }
    {
        self.of(kind, number).is_some()
    }

    // Whether the row of a number is joined.
    pub(crate) fn joined(&self, kind: Kind, number: usize) -> bool
        requires within { number < length (of_kind self.now kind) }
        requires flags { length self.now.joined_stops ≡ length self.now.stops }
        ensures { result ≡ is_joined_at self.now kind number }
    {
        match kind {
            Kind::Stop => self.joined_stops[number],
            _ => self.has(kind, number),
        }
    }

    // The number of the stop of A that the stop of a number is near.
    pub(crate) fn near(&self, number: usize) -> Option<usize>
        requires within { number < length self.now.stops }
        requires flags { length self.now.joined_stops ≡ length self.now.stops }
        ensures { result ≡ near_at self.now number }
    {
        if self.joined_stops[number] {
            return None;
        }
        stop_number(self.stops[number])
    }
}
