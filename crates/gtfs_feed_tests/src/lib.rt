//! The tests of the feed and of what passes its stops (`gtfs_feed`, `gtfs_runs` and the crates
//! below them down to `gtfs_rows`), in a crate of their own: a crate with tests is proved twice,
//! with them and without. They call public functions alone.
//!
//! - `assertions` has assertions as calls, and `named` the numbers of ids and the ids of numbers.
//! - `full` is one with a value in every column,
//!   in texts and orders other than those that are written.
//! - `ids` has the numbers of ids, `places` stop times in every place of their file, and `rows`
//!   what the rows of a feed say.
//! - `written` has texts in memory of other bytes, and `again` feeds that are written and read
//!   again. What is written stands in `tests/cases/merge/written-form/`.
//! - `events` has what passes a stop, by worked cases, and `timepoints` those at stop times between
//!   timepoints; `lanes` walks the lanes of each of them; `seeks` asks a lane from positions between
//!   its events, and `unions` all lanes of each stop together.
//! - `stop_index` has the departure rows of each stop.
//! - `large` has more rows of each kind than two bytes can number.
//! - `times` has stop times between timepoints, filled (`gtfs_times`).
//! - `trimmed` has feeds on one side of a service day.
//! - `patterns` has the patterns of a route.
//!
//! The worked examples of runs, events and patterns stand in `proofs/`, as lemmas that compute.
#![tactic(auto)]

#[cfg(test)]
mod again;
#[cfg(test)]
mod assertions;
#[cfg(test)]
mod events;
#[cfg(test)]
mod full;
#[cfg(test)]
mod ids;
#[cfg(test)]
mod lanes;
#[cfg(test)]
mod large;
#[cfg(test)]
mod named;
#[cfg(test)]
mod patterns;
#[cfg(test)]
mod places;
#[cfg(test)]
mod rows;
#[cfg(test)]
mod seeks;
#[cfg(test)]
mod stop_index;
#[cfg(test)]
mod timepoints;
#[cfg(test)]
mod times;
#[cfg(test)]
mod trimmed;
#[cfg(test)]
mod unions;
#[cfg(test)]
mod written;
