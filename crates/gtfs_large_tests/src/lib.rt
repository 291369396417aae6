//! Calls that can answer want of memory, far above each size that a program could mistake for its
//! memory. What the contracts say of such a call is met by a body that only answers want of memory,
//! so each is run here or in another test of a large size: `docs/dev/large-cases.md` has them all.
//!
//! - `texts` are values, keys and lines that are appended to long texts, and hold long ones.
//! - `folders` are many folders, many files in one, and many records and fields.
//! - `merges` are a feed with many rows of each kind, merged with itself.
//! - `boards` are departures of a board, one taken after the other.
//!
//! `rt try` builds with checks that make this take long; built for the gate it takes seconds.
#![tactic(auto)]

#[cfg(test)]
mod assertions;
#[cfg(test)]
mod boards;
#[cfg(test)]
mod folders;
#[cfg(test)]
mod merges;
#[cfg(test)]
mod texts;
