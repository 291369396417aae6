//! The tests of `gtfs_field` and `gtfs_days`, in a crate of their own: a crate with tests is proved
//! twice, with them and without. They call public functions alone.
//!
//! - `values` are texts of each kind of field with the values that they have,
//!   and the values' texts.
//! - `services` are the days on which services run, `cuts` what stays of them on one side of a day,
//!   and `zones` what the clocks of zones show, of small zone files and of those of five cities.
//! - `assertions` are what the tests assert with.
//!
//! The worked examples of the definitions stand in `proofs/`, as lemmas that compute.
#![tactic(auto)]

#[cfg(test)]
mod assertions;
#[cfg(test)]
mod cuts;
#[cfg(test)]
mod services;
#[cfg(test)]
mod values;
#[cfg(test)]
mod zones;
