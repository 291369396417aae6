//! The tests of advice (`gtfs_advice`), in a crate of their own: a crate with tests is proved
//! twice, with them and without. They call public functions alone.
//!
//! - `cases` makes feeds of changes to a quiet one, and compares the advice on them with the lines
//!   of a table. `small` is the small feed, and the quiet one, on which there is no advice.
//! - `agencies`, `stops`, `routes`, `trips`, `stop_times` and `services` have feeds at each rule's
//!   number and just off it, `letters` garbled letters, and `orders` the order of advice.
//! - `codes` has the files, names and texts of the codes.
//! - `many` is a feed of 70,000 stops and as many trips.
//! - `assertions` has assertions as calls.
#![tactic(auto)]

#[cfg(test)]
mod agencies;
#[cfg(test)]
mod assertions;
#[cfg(test)]
mod cases;
#[cfg(test)]
mod codes;
#[cfg(test)]
mod letters;
#[cfg(test)]
mod many;
#[cfg(test)]
mod orders;
#[cfg(test)]
mod routes;
#[cfg(test)]
mod services;
#[cfg(test)]
mod small;
#[cfg(test)]
mod stop_times;
#[cfg(test)]
mod stops;
#[cfg(test)]
mod trips;
