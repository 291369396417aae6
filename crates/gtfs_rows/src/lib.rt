//! The rows of a GTFS Schedule feed as typed values, and what they mean together.
//!
//! - [`Agency`], [`Stop`], [`Route`], [`ServiceRow`], [`Trip`], [`StopRow`], [`Frequency`] and
//!   [`Transfer`] are the rows of the nine files. Fields have the names of the columns; each choice
//!   is an enum with the numbers of the standard.
//! - A row names other rows by their numbers: an [`AgencyNo`], [`StopNo`], [`RouteNo`],
//!   [`ServiceNo`] or [`TripNo`] is the rank of an id among all ids of its kind, by bytes, from 0.
//!   A row's own id is a text in the row.
//! - [`StopRow`], which is of [`gtfs_stop_times`] with its choices and numbers, and [`Frequency`]
//!   are small and `Copy`. A time that may be missing is an [`OptionalClock`] of four bytes, and a
//!   headsign an [`OptionalHeadsign`], a number in the feed's list of headsigns.
//! - [`Agency::under`], [`Stop::under`], [`Route::under`] and [`Trip::under`] copy a row under
//!   another id, with the rows that it names there. [`ServiceRow::trim`] copies what stays of a
//!   service on one side of a service day.
//! - [`Parts`] are all rows of a feed, each list in the order of its keys;
//!   [`stretch`] finds the rows of one trip.
//!
//! What a row stands for, with ids as texts, is in `specs/RowsInMemory.antt`. `specs/ContentRead.antt` says
//! what the content of a dataset is, `specs/SoundContent.antt` which rows make a feed, and
//! `specs/WrittenContent.antt` how a feed is written; that what is written passes the validator and
//! reads back is proved in `proofs/`.
#![tactic(auto)]

mod agency;
mod copies;
mod frequency;
mod numbers;
mod parts;
mod route;
mod row_choices;
mod service;
mod stop;
mod transfer;
mod trip;

pub use agency::Agency;
pub use frequency::Frequency;
pub use gtfs_stop_times::{
    DropOffType, HeadsignNo, OptionalClock, OptionalHeadsign, PickupType, RowRange, StopNo,
    StopRow, StopTimesByTrip, Timepoint, TripOf, stretch,
};
pub use numbers::{AgencyNo, RouteNo, ServiceNo, TripNo};
pub use parts::Parts;
pub use route::{Route, RouteType};
pub use row_choices::{
    BikesAllowed, Direction, ExactTimes, LocationType, TransferType, WheelchairAccessible,
    WheelchairBoarding,
};
pub use service::ServiceRow;
pub use stop::Stop;
pub use transfer::Transfer;
pub use trip::Trip;
