//! The tests of `gtfs_devices` and `gtfs_table`, in a crate of their own: a crate with tests is
//! proved twice, with them and without. They call public functions alone.
//!
//! - `tables` are files with the records and values that they have, and `offsets` such with
//!   many fields and with long ones, also about the lengths at which records are kept in another
//!   way; `shown` is a table as a text.
//! - `memory_folders` and `disk_folders` are the two devices that hold folders,
//!   and `outputs` those that take text.
//! - `given_memory` are folders that are read in memory that is handed in.
//! - `sizes` are outputs, files, folders and records that are larger than those.
//! - `faults` are the lines and numbers of faults, also of those of `gtfs_field` and `gtfs_days`.
//! - `assertions` are what the tests assert with, and `device` what they ask of folders.
//!
//! The worked examples of the definitions stand in `proofs/`, as lemmas that compute. Among them
//! are counts of calls and failures that are full (`WorkedCounts.antt`), which no run reaches.
#![tactic(auto)]

#[cfg(test)]
mod assertions;
#[cfg(test)]
mod device;
#[cfg(test)]
mod disk_folders;
#[cfg(test)]
mod faults;
#[cfg(test)]
mod given_memory;
#[cfg(test)]
mod memory_folders;
#[cfg(test)]
mod offsets;
#[cfg(test)]
mod outputs;
#[cfg(test)]
mod shown;
#[cfg(test)]
mod sizes;
#[cfg(test)]
mod tables;
