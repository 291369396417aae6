use crate::numbers::{RouteNo, TripNo};
use crate::row_choices::TransferType;
use gtfs_stop_times::StopNo;

/// A row of `transfers.txt` (GTFS Schedule Reference, `transfers.txt`).
#[derive(Clone, Copy, Debug, PartialEq, Eq)]
pub struct Transfer {
    pub from_stop_id: Option<StopNo>,
    pub to_stop_id: Option<StopNo>,
    pub from_route_id: Option<RouteNo>,
    pub to_route_id: Option<RouteNo>,
    pub from_trip_id: Option<TripNo>,
    pub to_trip_id: Option<TripNo>,
    pub transfer_type: TransferType,
    /// Seconds, 0 to 2,147,483,647.
    pub min_transfer_time: Option<u32>,
}
