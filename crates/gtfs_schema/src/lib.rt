//! The columns of a GTFS Schedule dataset, the values in them, and the problems that they can have.
//!
//! The crates that judge a dataset stand on this one, each with its own rules, and so does whatever
//! reads typed values from a dataset that passed: a value is read in one way.
//!
//! - The kept [`Column`]s of each file: name, [`Kind`], and what an empty value is.
//! - [`values`] reads the value of a text by its kind, as an id, a count, a choice, a time, a
//!   date, a colour or a coordinate, and answers None where there is none. In tables that pass,
//!   that is where the text is empty and nowhere else. [`push_plain`] writes a text as its value
//!   has it, without control characters.
//! - A column is found once, by its index in the header, and then read record after record
//!   (`Tables::column`, `Record::value` of `gtfs_table`).
//! - [`Ids`] are the ids of a file, each with its number by bytes and its first row, and a
//!   [`Finder`] looks them up. [`FeedIds`] has all those that other files name, of which
//!   [`NetworkIds`] are those of agencies, stops, routes and trips.
//! - [`stop_types`] are the location types of stops.
//! - A [`Code`] says what is wrong, and a [`Problem`] where: in which [`FileName`], row and column.
//!   [`Found`] gathers the problems that were found.
//!
//! When a problem holds stands in `specs/`, a file for each topic: files, columns, fields, keys and
//! references, presence, stops, trips, periods and services; and the columns, keys and references
//! of the nine files as data. What only the steps of a check need stands in `specs/steps/`.
#![tactic(auto)]

mod cell;
mod code;
mod columns;
mod equal;
mod feed_ids;
mod file_name;
mod finder;
mod found;
mod id_row;
mod ids;
mod location_types;
mod network_ids;
mod plain;
mod problem;
mod slots;
pub mod values;

pub use cell::{cell_code, fault_code, has_control, is_required, length_code, read_choice};
pub use code::Code;
pub use columns::{
    Column, Empty, Kind, agency_columns, calendar_columns, calendar_dates_columns,
    frequencies_columns, routes_columns, stop_times_columns, stops_columns, transfers_columns,
    trips_columns,
};
pub use equal::are_equal;
pub use feed_ids::FeedIds;
pub use file_name::FileName;
pub use finder::{Finder, FoundId};
pub use found::Found;
pub use ids::Ids;
pub use location_types::{is_one_of, stop_types, type_of};
pub use network_ids::NetworkIds;
pub use plain::push_plain;
pub use problem::Problem;
