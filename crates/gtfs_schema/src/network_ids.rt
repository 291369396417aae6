ghost use Rattle.std.specs.Prelude.{IfOk};
ghost use Rattle.gtfs_schema.specs.steps.FeedIds.{AreNetworkIdsOf};

use crate::ids::Ids;
use gtfs_field::OutOfMemory;
use gtfs_table::{File, Tables};
use std::alloc::Global;

/// The ids of the files that have a row for each of them.
/// Those of services come of two files, and stand apart.
pub struct NetworkIds<'a> {
    /// `agency_id` of agency.txt.
    pub agencies: Ids<'a>,
    /// `stop_id` of stops.txt.
    pub stops: Ids<'a>,
    /// `route_id` of routes.txt.
    pub routes: Ids<'a>,
    /// `trip_id` of trips.txt.
    pub trips: Ids<'a>,
}

// Written out, so that a function that lets ids go has one call to prove.
impl Drop for NetworkIds<'_> {
    fn drop(self) {
        let NetworkIds {
            agencies: _,
            stops: _,
            routes: _,
            trips: _,
        } = self;
    }
}

impl<'a> NetworkIds<'a> {
    /// The ids of these tables, whose texts they borrow.
    ///
    /// # Errors
    /// `OutOfMemory` where an index cannot be built.
    pub fn new(alloc: Global, tables: &'a Tables) -> Result<NetworkIds<'a>, OutOfMemory>
        ensures { IfOk result (AreNetworkIdsOf tables.now) }
    {
        let agencies = Ids::new(alloc, tables, File::Agency)?;
        let stops = Ids::new(alloc, tables, File::Stops)?;
        let routes = Ids::new(alloc, tables, File::Routes)?;
        let trips = Ids::new(alloc, tables, File::Trips)?;
        Ok(NetworkIds {
            agencies,
            stops,
            routes,
            trips,
        })
    }
}
