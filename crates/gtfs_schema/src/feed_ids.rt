ghost use Rattle.std.specs.Prelude.{IfOk};
ghost use Rattle.gtfs_schema.specs.steps.FeedIds.{AreIdsOf};

use crate::ids::Ids;
use crate::network_ids::NetworkIds;
use gtfs_field::OutOfMemory;
use gtfs_table::{File, Tables};
use std::alloc::Global;

/// The first rows of the ids that columns of other files name (GTFS Schedule Reference,
/// fields of type "Foreign ID").
#[derive(Drop)]
pub struct FeedIds<'a> {
    /// Those of agencies, stops, routes and trips.
    pub network: NetworkIds<'a>,
    /// `service_id` of calendar.txt.
    pub calendar: Ids<'a>,
    /// `service_id` of calendar_dates.txt.
    pub calendar_dates: Ids<'a>,
}

impl<'a> FeedIds<'a> {
    /// The ids of these tables, whose texts they borrow.
    ///
    /// # Errors
    /// `OutOfMemory` where an index cannot be built.
    pub fn new(alloc: Global, tables: &'a Tables) -> Result<FeedIds<'a>, OutOfMemory>
        ensures { IfOk result (AreIdsOf tables.now) }
    {
        let network = NetworkIds::new(alloc, tables)?;
        let calendar = Ids::new(alloc, tables, File::Calendar)?;
        let calendar_dates = Ids::new(alloc, tables, File::CalendarDates)?;
        Ok(FeedIds {
            network,
            calendar,
            calendar_dates,
        })
    }
}
