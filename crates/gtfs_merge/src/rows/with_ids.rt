ghost use Rattle.std.specs.Prelude.{◌≡◌, IfOk};
ghost use Rattle.gtfs_merge.specs.IdRows.{AreIdRows};
ghost use Rattle.gtfs_merge.specs.KindEntries.{AreMergedKinds};
ghost use Rattle.gtfs_merge.specs.MergedLists.{parts_with};

use crate::numbering::all_kinds::MergedKinds;
use crate::rows::agencies::merged_agencies;
use crate::rows::frequencies::Frequencies;
use crate::rows::routes::merged_routes;
use crate::rows::services::merged_services;
use crate::rows::stops::merged_stops;
use crate::rows::trips::merged_trips;
use crate::sides::Sides;
use gtfs_field::{List, OutOfMemory, Text};
use gtfs_rows::{Agency, Parts, Route, ServiceRow, Stop, StopTimesByTrip, Transfer, Trip};
use std::alloc::Global;

// The rows with ids of a merged feed, in the order of their new ids.
pub(crate) struct IdRows {
    pub(crate) agencies: List<Agency>,
    pub(crate) stops: List<Stop>,
    pub(crate) routes: List<Route>,
    pub(crate) services: List<ServiceRow>,
    pub(crate) trips: List<Trip>,
}

// Written out, so that a function that lets rows go has one call to prove.
impl Drop for IdRows {
    fn drop(self) {
        let IdRows {
            agencies: _,
            stops: _,
            routes: _,
            services: _,
            trips: _,
        } = self;
    }
}

impl IdRows {
    // The rows of each kind, where these are the merged rows of all kinds.
    pub(crate) fn of_kinds(
        alloc: Global,
        sides: &Sides,
        kinds: &MergedKinds,
    ) -> Result<IdRows, OutOfMemory>
        requires { AreMergedKinds sides.now kinds.now }
        ensures { IfOk result (AreIdRows sides.now) }
    {
        let agencies = merged_agencies(alloc, sides, &kinds.agencies)?;
        let stops = merged_stops(alloc, sides, &kinds.stops)?;
        let routes = merged_routes(alloc, sides, &kinds.routes, &kinds.agencies)?;
        let services = merged_services(alloc, sides, &kinds.services)?;
        let trips = merged_trips(alloc, sides, &kinds.trips, &kinds.routes, &kinds.services)?;
        Ok(IdRows {
            agencies,
            stops,
            routes,
            services,
            trips,
        })
    }

    // All lists of a feed.
    pub(crate) fn with_lists(
        self,
        transfers: List<Transfer>,
        stop_times: StopTimesByTrip,
        frequencies: Frequencies,
        headsigns: List<Text>,
    ) -> Parts
        ensures { result ≡ parts_with self transfers stop_times frequencies headsigns }
    {
        let IdRows {
            agencies,
            stops,
            routes,
            services,
            trips,
        } = self;
        let Frequencies { rows, starts } = frequencies;
        Parts {
            agencies,
            stops,
            routes,
            services,
            trips,
            transfers,
            stop_times,
            frequencies: List::new(rows),
            frequency_starts: List::new(starts),
            headsigns,
        }
    }
}
