//! What passes a stop, and when, without unfolding a day.
//!
//! - An [`Event`] is a run of a trip that passes a row at which riders can leave a stop: when,
//!   after the origin of whichever service day. Events have an order, and a [`Seek`] is a position
//!   between them, by the id of a trip; a [`Moment`] is the same by its number.
//! - A [`Lane`] tells events of one service, each after the one before: a [`ListLane`] those of a
//!   list, a [`FilledLane`] those of a list with times that the file does not give, a [`StepLane`]
//!   those of a row of `frequencies.txt`, which it does not list.
//! - A [`Pattern`] has the trips of a route that go in one direction along one list of stops;
//!   [`patterns`] has them all.
//! - [`StopLanes`] are the lanes of a stop.
//!   [`flat_events`] lists all of its events one by one, for tests.
//! - A [`StopIndex`] has for each stop the departure rows there,
//!   and makes the lanes of one stop after another cheap.
//! - [`Steps`] counts how often a lane was asked.
//!
//! Each is made under a choice of [`Times`]:
//! those of the file alone, or others where the file has none.
//!
//! [`Feed`], which these are made of, is handed on from `gtfs_feed`,
//! and [`Times`] from `gtfs_times`.
#![tactic(auto)]

mod departure_row;
mod event;
mod event_range;
mod filled_lane;
mod flat;
mod grouped_trip;
mod lane;
mod list_lane;
mod moment;
mod pattern;
mod place;
mod seek;
mod step_lane;
mod steps;
mod stop_index;
mod stop_lanes;
mod trips;

pub use departure_row::DepartureRow;
pub use event::Event;
pub use filled_lane::FilledLane;
pub use flat::flat_events;
pub use gtfs_feed::Feed;
pub use gtfs_times::Times;
pub use lane::Lane;
pub use list_lane::ListLane;
pub use moment::Moment;
pub use pattern::{Pattern, patterns};
pub use seek::Seek;
pub use step_lane::StepLane;
pub use steps::Steps;
pub use stop_index::StopIndex;
pub use stop_lanes::StopLanes;
pub use trips::trips_below;
