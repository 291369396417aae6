//! The typed feed of a GTFS Schedule dataset.
//!
//! - [`Feed`] has the rows of a dataset by number: ids are numbered in the order of their bytes,
//!   from 0. [`Feed::new`] makes one of a dataset that passed the validator, and
//!   [`Feed::assemble`] of [`Parts`] that are sound.
//! - [`FeedDraft`] makes the same feed of tables that nothing else needs, in less memory:
//!   they go before it is whole.
//! - [`Parts`] has the rows themselves, such as [`Trip`] and [`StopRow`],
//!   and [`TripNo`] and its like are their numbers.
//! - [`Feed::trimmed`] is the feed on one side of a service day.
//! - [`Feed::to_tables`] is its written form, and [`Feed::file_text`] the text of one file of it.
#![tactic(auto)]

mod copied;
mod draft;
mod feed;
mod named;
mod reading;
mod trimmed;
mod written;

pub use draft::FeedDraft;
pub use feed::Feed;
pub use gtfs_rows::{
    Agency, AgencyNo, BikesAllowed, Direction, DropOffType, ExactTimes, Frequency, HeadsignNo,
    LocationType, OptionalClock, OptionalHeadsign, Parts, PickupType, Route, RouteNo, RouteType,
    ServiceNo, ServiceRow, Stop, StopNo, StopRow, StopTimesByTrip, Timepoint, Transfer,
    TransferType, Trip, TripNo, WheelchairAccessible, WheelchairBoarding,
};
