//! The tests of the validator (`gtfs_rules` and the crates below it down to
//! `gtfs_schema`), in a crate of their own: a crate with tests is proved twice, with them
//! and without. They call public functions alone.
//!
//! - `feed` is a small feed without a problem.
//! - `columns` has the public calls of `gtfs_schema` on their happy paths.
//! - `stop_times` has the stop times that a feed which passes hands on.
//! - `texts` compares texts of all short lengths.
//! - `many` is a feed with hundreds of thousands of problems.
//!
//! What the reports of small feeds have to tell stands in `tests/cases/check/`, and a second
//! program, that of `tests/plain/`, tells the reports of made ones.
//!
//! The worked examples of the definitions stand in `proofs/`, as lemmas that compute:
//! the whole reports of small feeds.
#![tactic(auto)]

#[cfg(test)]
mod assertions;
#[cfg(test)]
mod columns;
#[cfg(test)]
mod feed;
#[cfg(test)]
mod many;
#[cfg(test)]
mod stop_times;
#[cfg(test)]
mod texts;
