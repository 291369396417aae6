//! The tests of merging (`gtfs_merge`), in a crate of their own: a crate with tests is proved
//! twice, with them and without. They call public functions alone.
//!
//! - `cases` merges changes to a small dataset, and compares the names and the written files with
//!   those of a table, of feeds that are lent and of such that are given up; `report` tells the
//!   names on lines, and `written` has the headers of the files.
//! - `worked` has whole merges, and compares all tables: `agencies`, `stops`, `services`, `trips`
//!   and `transfers` have what is joined and what is renamed of each kind, `chains` new names that
//!   are taken already, `near` near stops, and `cutoff` merges of one feed until a day and of the
//!   other from it on. `chains` also merges three feeds.
//! - `names` asks for the name of each id,
//!   and `refusals` has zones that differ and files that are too long.
//! - `assertions` has assertions as calls.
//!
//! Boards of merged feeds are those of the built program: cases and a second program hold them to
//! the boards of both feeds.
#![tactic(auto)]

#[cfg(test)]
mod agencies;
#[cfg(test)]
mod assertions;
#[cfg(test)]
mod cases;
#[cfg(test)]
mod chains;
#[cfg(test)]
mod cutoff;
#[cfg(test)]
mod names;
#[cfg(test)]
mod near;
#[cfg(test)]
mod refusals;
#[cfg(test)]
mod report;
#[cfg(test)]
mod services;
#[cfg(test)]
mod stops;
#[cfg(test)]
mod transfers;
#[cfg(test)]
mod trips;
#[cfg(test)]
mod worked;
#[cfg(test)]
mod written;
