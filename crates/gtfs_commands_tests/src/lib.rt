//! Tests of `gtfs_commands`: what the words of each command ask for, and which words are refused
//! or ask for help or for the version. The worked examples in `proofs/` compute what its
//! definitions say of such words.
#![tactic(auto)]

#[cfg(test)]
mod asked;
#[cfg(test)]
mod asserts;
#[cfg(test)]
mod untaken;
