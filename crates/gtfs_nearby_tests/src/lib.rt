//! The tests of near stops (`gtfs_nearby`), in a crate of their own: a crate with tests is proved
//! twice, with them and without. They call public functions alone.
//!
//! - `pairs` asks of two stops whether they are near, by a table.
//! - `layouts` has some thousand stops in the ways that make a search slow,
//!   beside a plain slow search.
//! - `spots` makes the stops, and `assertions` has assertions as calls.
#![tactic(auto)]

#[cfg(test)]
mod assertions;
#[cfg(test)]
mod layouts;
#[cfg(test)]
mod pairs;
#[cfg(test)]
mod spots;
