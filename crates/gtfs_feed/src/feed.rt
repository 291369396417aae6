ghost use Rattle.std.specs.Prelude.{◌≡◌, ◌<◌, [], IfOk, IsOk, Some, length, position, option_map, bytes_eq, slice_get, slice_index_or};
ghost use Rattle.gtfs_rows.specs.RowsInMemory.{IsSoundParts, agency_ids, stop_ids, route_ids, service_ids, trip_ids};
ghost use Rattle.gtfs_rows.specs.Trips.{stop_rows_by_trip, frequencies_by_trip};

use crate::named::number_of;
use gtfs_days::Service;
use gtfs_field::OutOfMemory;
use gtfs_rows::{
    Agency, AgencyNo, Frequency, HeadsignNo, Parts, Route, RouteNo, ServiceNo, Stop, StopNo,
    StopRow, StopTimesByTrip, Transfer, Trip, TripNo, stretch,
};
use std::alloc::Global;
use std::hash::RandomState;
use std::marker::Model;

/// The rows of a feed by number, and its ids by text. A feed is always sound: its lists are in the
/// order of their keys, every reference names a row, and no rule of the validator is broken.
pub struct Feed {
    parts: Parts,
}

impl Model for Feed {
    ghost use Rattle.gtfs_rows.specs.declared.parts.Parts.{Parts as PartsValue};
    ghost use Rattle.gtfs_rows.specs.RowsInMemory.{IsSoundParts};

    ghost Value = { PartsValue };

    ghost view = { λ f. f.parts };

    ghost invariant = { λ f. IsSoundParts f.parts };
}

// Written out, so that a function that lets a feed go has one call to prove.
impl Drop for Feed {
    fn drop(self) {
        let Feed { parts: _ } = self;
    }
}

impl Feed {
    /// The feed of these rows: ids have their numbers in the order of their bytes.
    ///
    /// Ids are found in the rows themselves, so this takes no memory,
    /// and the random state is not needed.
    ///
    /// # Errors
    /// None: `OutOfMemory` never comes.
    pub fn assemble(_alloc: Global, _random: RandomState, parts: Parts) -> Result<Feed, OutOfMemory>
        requires { IsSoundParts parts }
        ensures answers { IsOk result }
        ensures value { IfOk result (λ feed. feed ≡ parts) }
    {
        Ok(Feed { parts })
    }

    /// All rows, as [`Feed::assemble`] took them.
    pub fn parts(&self) -> &Parts
        ensures value { result.now ≡ self.now }
        ensures sound { IsSoundParts self.now }
    {
        &self.parts
    }

    /// The stop times of all trips, for which the feed is let go. It takes no memory.
    pub fn into_stop_times(self) -> StopTimesByTrip
        ensures { result ≡ self.stop_times }
    {
        let Feed { parts } = self;
        parts.into_stop_times()
    }

    /// The number of an agency by its id, and None exactly where the feed has no such agency.
    pub fn agency(&self, id: &str) -> Option<AgencyNo>
        ensures { option_map (λ n. n.0) result ≡ position (bytes_eq id.now) (agency_ids self.now) }
    {
        let number = number_of(self.parts.agencies.as_slice(), id)?;
        Some(AgencyNo(number))
    }

    /// How many agencies the feed has.
    pub fn agency_count(&self) -> usize
        ensures { result ≡ length self.now.agencies }
    {
        self.parts.agencies.len()
    }

    /// The number of a stop by its id, and None exactly where the feed has no such stop.
    pub fn stop(&self, id: &str) -> Option<StopNo>
        ensures { option_map (λ n. n.0) result ≡ position (bytes_eq id.now) (stop_ids self.now) }
    {
        let number = number_of(self.parts.stops.as_slice(), id)?;
        Some(StopNo(number))
    }

    /// How many stops the feed has.
    pub fn stop_count(&self) -> usize
        ensures { result ≡ length self.now.stops }
    {
        self.parts.stops.len()
    }

    /// The number of a route by its id, and None exactly where the feed has no such route.
    pub fn route(&self, id: &str) -> Option<RouteNo>
        ensures { option_map (λ n. n.0) result ≡ position (bytes_eq id.now) (route_ids self.now) }
    {
        let number = number_of(self.parts.routes.as_slice(), id)?;
        Some(RouteNo(number))
    }

    /// How many routes the feed has.
    pub fn route_count(&self) -> usize
        ensures { result ≡ length self.now.routes }
    {
        self.parts.routes.len()
    }

    /// The number of a service by its id, and None exactly where the feed has no such service.
    pub fn service(&self, id: &str) -> Option<ServiceNo>
        ensures { option_map (λ n. n.0) result ≡ position (bytes_eq id.now) (service_ids self.now) }
    {
        let number = number_of(self.parts.services.as_slice(), id)?;
        Some(ServiceNo(number))
    }

    /// How many services the feed has.
    pub fn service_count(&self) -> usize
        ensures { result ≡ length self.now.services }
    {
        self.parts.services.len()
    }

    /// The number of a trip by its id, and None exactly where the feed has no such trip.
    pub fn trip(&self, id: &str) -> Option<TripNo>
        ensures { option_map (λ n. n.0) result ≡ position (bytes_eq id.now) (trip_ids self.now) }
    {
        let number = number_of(self.parts.trips.as_slice(), id)?;
        Some(TripNo(number))
    }

    /// How many trips the feed has.
    pub fn trip_count(&self) -> usize
        ensures { result ≡ length self.now.trips }
    {
        self.parts.trips.len()
    }

    /// The agency of a number, which is below [`Feed::agency_count`].
    pub fn agency_by_number(&self, agency: AgencyNo) -> &Agency
        requires { agency.0 < length self.now.agencies }
        ensures { slice_get self.now.agencies agency.0 ≡ Some result.now }
    {
        &self.parts.agencies.as_slice()[agency.0]
    }

    /// The stop of a number, which is below [`Feed::stop_count`].
    pub fn stop_by_number(&self, stop: StopNo) -> &Stop
        requires { stop.0 < length self.now.stops }
        ensures { slice_get self.now.stops stop.0 ≡ Some result.now }
    {
        &self.parts.stops.as_slice()[stop.0]
    }

    /// The route of a number, which is below [`Feed::route_count`].
    pub fn route_by_number(&self, route: RouteNo) -> &Route
        requires { route.0 < length self.now.routes }
        ensures { slice_get self.now.routes route.0 ≡ Some result.now }
    {
        &self.parts.routes.as_slice()[route.0]
    }

    /// The trip of a number, which is below [`Feed::trip_count`].
    pub fn trip_by_number(&self, trip: TripNo) -> &Trip
        requires { trip.0 < length self.now.trips }
        ensures { slice_get self.now.trips trip.0 ≡ Some result.now }
    {
        &self.parts.trips.as_slice()[trip.0]
    }

    /// The days of the service of a number, which is below [`Feed::service_count`].
    pub fn service_by_number(&self, service: ServiceNo) -> &Service
        requires { service.0 < length self.now.services }
        ensures { option_map (λ s. s.service) (slice_get self.now.services service.0)
            ≡ Some result.now }
    {
        &self.parts.services.as_slice()[service.0].service
    }

    /// The id of the service of a number, which is below [`Feed::service_count`].
    pub fn service_id(&self, service: ServiceNo) -> &str
        requires { service.0 < length self.now.services }
        ensures { slice_index_or (service_ids self.now) service.0 [] ≡ result.now }
    {
        let row = &self.parts.services.as_slice()[service.0];
        row.service_id.as_str()
    }

    /// The stop times of the trip of a number, which is below [`Feed::trip_count`],
    /// by their sequence.
    pub fn trip_rows(&self, trip: TripNo) -> &[StopRow]
        requires { trip.0 < length self.now.trips }
        ensures { slice_get (stop_rows_by_trip self.now) trip.0 ≡ Some result.now }
    {
        self.parts.stop_times.of_trip(trip.0)
    }

    /// The frequencies of the trip of a number, which is below [`Feed::trip_count`],
    /// by their start.
    pub fn trip_frequencies(&self, trip: TripNo) -> &[Frequency]
        requires { trip.0 < length self.now.trips }
        ensures { slice_get (frequencies_by_trip self.now) trip.0 ≡ Some result.now }
    {
        let rows = self.parts.frequencies.as_slice();
        stretch(rows, self.parts.frequency_starts.as_slice(), trip.0)
    }

    /// What each feed keeps, for proofs: its parts are sound. It does nothing.
    pub fn soundness(&self)
        ensures { IsSoundParts self.now }
    {
        let _trips = &self.parts.trips;
    }

    /// The text of a headsign that a stop time names.
    pub fn headsign(&self, headsign: HeadsignNo) -> &str
        requires { headsign.0 < length self.now.headsigns }
        ensures { result.now ≡ slice_index_or self.now.headsigns headsign.0 [] }
    {
        self.parts.headsigns.as_slice()[headsign.0 as usize].as_str()
    }

    /// The transfers, by their keys.
    pub fn transfers(&self) -> &[Transfer]
        ensures value { result.now ≡ self.now.transfers }
    {
        self.parts.transfers.as_slice()
    }
}
