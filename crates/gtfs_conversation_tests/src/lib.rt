//! The tests of `gtfs_conversation`, in a crate of their own: a crate with tests is proved twice,
//! with them and without. They call public functions alone.
//!
//! - `streams` are lines that are heard from a reader, `long_lines` such about the length that is
//!   answered, and `order` what had gone out when each byte was read.
//! - `memory` are conversations in memory, and `failing_outputs` those whose output fails.
//! - `assertions` are what the tests assert with, `drip` is their reader, `taker` their writer, and
//!   `echo` what answers.
#![tactic(auto)]

#[cfg(test)]
mod assertions;
#[cfg(test)]
mod drip;
#[cfg(test)]
mod echo;
#[cfg(test)]
mod failing_outputs;
#[cfg(test)]
mod long_lines;
#[cfg(test)]
mod memory;
#[cfg(test)]
mod order;
#[cfg(test)]
mod streams;
#[cfg(test)]
mod taker;
