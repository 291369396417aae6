//! Times for stop times that have none: those of a vehicle that goes at an even pace.
//!
//! A file may give times at some stops of a trip alone (GTFS Schedule Reference,
//! `stop_times.txt`, `arrival_time` and `departure_time`). A stop time with neither lies between
//! two that have one. It gets a part of the seconds from leaving the one to reaching the other:
//! the part that its position is of the way between them, cut to whole seconds. Positions count
//! the stop times of the trip, so neither sequences nor distances play a part.
//!
//! - [`Times`] says whether such stop times get a time or not.
//! - [`is_to_fill`] tells whether that changes the stop times of a trip, and [`filled`] makes a
//!   list of them with their times.
//!
//! So 08:00:00, none, none and 08:10:01 become 08:00:00, 08:03:20, 08:06:40 and 08:10:01.
//!
//! The page `specs/Words.antt` names the definitions, in the order in which they are read.
#![tactic(auto)]

mod fill;
mod span;
mod times;

pub use fill::{filled, is_to_fill};
pub use times::Times;
