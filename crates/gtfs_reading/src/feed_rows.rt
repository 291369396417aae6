ghost use Rattle.std.specs.Prelude.{◌≡◌, map, IfOk, OnOk};
ghost use Rattle.gtfs_schema.specs.Problems.{Passes};
ghost use Rattle.gtfs_schema.specs.steps.FeedIds.{AreNetworkIdsOf};
ghost use Rattle.gtfs_reading.specs.FeedRows.{AreRowsOf, rows_in};
ghost use Rattle.gtfs_reading.specs.SoundLists.{HasNetwork, HasTrips};
ghost use Rattle.gtfs_reading.specs.ServiceIds.{HasAll, service_ids, service_texts};
ghost use Rattle.gtfs_rows.specs.ContentRead.{content_of};
ghost use Rattle.gtfs_rows.specs.RowsInMemory.{content_of_parts, stop_row_of};
ghost use Rattle.gtfs_table.specs.FieldOffsets.{parts};
ghost use Rattle.gtfs_table.specs.Tables.{Dataset};

use crate::agencies::agencies;
use crate::frequencies::{TripFrequencies, frequencies};
use crate::routes::routes;
use crate::service_ids::ServiceIds;
use crate::services::services;
use crate::stops::stops;
use crate::transfers::transfers;
use crate::trips::trips;
use gtfs_field::{List, OutOfMemory, Text};
use gtfs_rows::{
    Agency, Frequency, Parts, Route, ServiceRow, Stop, StopTimesByTrip, Transfer, Trip,
};
use gtfs_schema::NetworkIds;
use gtfs_table::Tables;
use std::alloc::Global;

/// All rows of a feed but its stop times:
/// the lists of a [`Parts`](gtfs_rows::Parts) that have the same names.
///
/// Each list stands in the order of its keys, ids by their bytes, and a row names others by their
/// numbers in these lists (GTFS Schedule Reference, "Dataset Files").
pub struct FeedRows {
    pub agencies: List<Agency>,
    pub stops: List<Stop>,
    pub routes: List<Route>,
    pub services: List<ServiceRow>,
    pub trips: List<Trip>,
    pub transfers: List<Transfer>,
    /// The frequencies of all trips, trip after trip and in each trip by start.
    pub frequencies: List<Frequency>,
    /// Where the frequencies of each trip begin.
    pub frequency_starts: List<usize>,
}

// Written out, so that a function that lets rows go has one call to prove.
impl Drop for FeedRows {
    fn drop(self) {
        let FeedRows {
            agencies: _,
            stops: _,
            routes: _,
            services: _,
            trips: _,
            transfers: _,
            frequencies: _,
            frequency_starts: _,
        } = self;
    }
}

impl FeedRows {
    /// The rows of a dataset that passed, which has these ids. An id is looked up once and is a
    /// number from then on; a route that names no agency has the only one; an empty choice is what
    /// it means, and a control character in a text is a space.
    ///
    /// # Errors
    /// `OutOfMemory` where a list or a text cannot grow.
    pub fn new(
        alloc: Global,
        tables: &Tables,
        ids: &NetworkIds<'_>,
    ) -> Result<FeedRows, OutOfMemory>
        requires passes { Passes tables.now }
        requires ids { AreNetworkIdsOf tables.now ids.now }
        ensures { IfOk result (AreRowsOf tables.now) }
    {
        let mut rows = FeedRows::empty(alloc);
        rows.read(alloc, tables, ids).and(Ok(rows))
    }

    // Rows of which no list is read yet.
    fn empty(alloc: Global) -> FeedRows {
        FeedRows {
            agencies: List::new(Vec::new(alloc)),
            stops: List::new(Vec::new(alloc)),
            routes: List::new(Vec::new(alloc)),
            services: List::new(Vec::new(alloc)),
            trips: List::new(Vec::new(alloc)),
            transfers: List::new(Vec::new(alloc)),
            frequencies: List::new(Vec::new(alloc)),
            frequency_starts: List::new(Vec::new(alloc)),
        }
    }

    // Reads the lists of tables by their ids.
    // They have one owner, whichever of them finds no memory.
    fn read(
        &mut self,
        alloc: Global,
        tables: &Tables,
        ids: &NetworkIds<'_>,
    ) -> Result<(), OutOfMemory>
        requires passes { Passes tables.now }
        requires ids { AreNetworkIdsOf tables.now ids.now }
        ensures { OnOk result (AreRowsOf tables.now self.new) }
    {
        let services = ServiceIds::new(alloc, tables)?;
        self.read_lists(alloc, tables, ids, &services)
    }

    // The same, with the services by their numbers.
    fn read_lists(
        &mut self,
        alloc: Global,
        tables: &Tables,
        ids: &NetworkIds<'_>,
        services: &ServiceIds<'_>,
    ) -> Result<(), OutOfMemory>
        requires passes { Passes tables.now }
        requires ids { AreNetworkIdsOf tables.now ids.now }
        requires services { services.now ≡ service_ids tables.now }
        requires named { HasAll (service_texts tables.now) services.now }
        ensures { OnOk result (AreRowsOf tables.now self.new) }
    {
        self.read_network(alloc, tables, ids)?;
        self.read_trips(alloc, tables, ids, services)?;
        self.read_links(alloc, tables, ids)
    }

    // Reads the agencies, the stops and the routes.
    fn read_network(
        &mut self,
        alloc: Global,
        tables: &Tables,
        ids: &NetworkIds<'_>,
    ) -> Result<(), OutOfMemory>
        requires passes { Passes tables.now }
        requires ids { AreNetworkIdsOf tables.now ids.now }
        ensures { OnOk result (HasNetwork tables.now self.new) }
    {
        self.agencies = agencies(alloc, tables, &ids.agencies)?;
        self.stops = stops(alloc, tables, &ids.stops)?;
        self.routes = routes(alloc, tables, &ids.agencies, &ids.routes)?;
        Ok(())
    }

    // Reads the services and the trips.
    fn read_trips(
        &mut self,
        alloc: Global,
        tables: &Tables,
        ids: &NetworkIds<'_>,
        service_numbers: &ServiceIds<'_>,
    ) -> Result<(), OutOfMemory>
        requires passes { Passes tables.now }
        requires ids { AreNetworkIdsOf tables.now ids.now }
        requires services { service_numbers.now ≡ service_ids tables.now }
        requires named { HasAll (service_texts tables.now) service_numbers.now }
        requires network { HasNetwork tables.now self.old }
        ensures { OnOk result (HasTrips tables.now self.new) }
    {
        self.services = services(alloc, tables, service_numbers)?;
        self.trips = trips(alloc, tables, &ids.routes, service_numbers, &ids.trips)?;
        Ok(())
    }

    // Reads the transfers and the frequencies, the last of the lists.
    fn read_links(
        &mut self,
        alloc: Global,
        tables: &Tables,
        ids: &NetworkIds<'_>,
    ) -> Result<(), OutOfMemory>
        requires passes { Passes tables.now }
        requires ids { AreNetworkIdsOf tables.now ids.now }
        requires trips { HasTrips tables.now self.old }
        ensures { OnOk result (AreRowsOf tables.now self.new) }
    {
        self.transfers = transfers(alloc, tables, &ids.stops, &ids.routes, &ids.trips)?;
        let TripFrequencies { rows, starts } = frequencies(alloc, tables, &ids.trips)?;
        self.frequencies = rows;
        self.frequency_starts = starts;
        Ok(())
    }

    /// All rows of the feed, with its stop times and the headsigns that they name by their numbers.
    pub fn with_stop_times(self, stop_times: StopTimesByTrip, headsigns: List<Text>) -> Parts
        ensures rows { rows_in result ≡ self }
        ensures stop_times { result.stop_times ≡ stop_times }
        ensures headsigns { result.headsigns ≡ headsigns }
        ensures content { (d : Dataset) → AreRowsOf d self
            → map (map (stop_row_of result)) (parts stop_times.starts stop_times.rows)
            ≡ map (λ t. t.stop_rows) (content_of d).trips
            → content_of_parts result ≡ content_of d }
    {
        let FeedRows {
            agencies,
            stops,
            routes,
            services,
            trips,
            transfers,
            frequencies,
            frequency_starts,
        } = self;
        Parts {
            agencies,
            stops,
            routes,
            services,
            trips,
            transfers,
            stop_times,
            frequencies,
            frequency_starts,
            headsigns,
        }
    }
}
