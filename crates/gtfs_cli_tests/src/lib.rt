//! Tests of `gtfs_cli` that a script over the built program cannot make: devices of which a call
//! fails, outputs that take less than the whole, and folders that lie in memory. The worked
//! examples in `proofs/` compute what its definitions say of small feeds, words, keys and lines.
//!
//! Whole answers, from the words and a feed to what is printed,
//! stand in `tests/cases/` at the top of the repository.
#![tactic(auto)]

#[cfg(test)]
mod advised;
#[cfg(test)]
mod assertions;
#[cfg(test)]
mod boards;
#[cfg(test)]
mod checks;
#[cfg(test)]
mod cutoff;
#[cfg(test)]
mod ended;
#[cfg(test)]
mod faults;
#[cfg(test)]
mod filled_times;
#[cfg(test)]
mod fixtures;
#[cfg(test)]
mod folders;
#[cfg(test)]
mod many_boards;
#[cfg(test)]
mod merges;
#[cfg(test)]
mod near_stops;
#[cfg(test)]
mod outputs;
#[cfg(test)]
mod serving;
