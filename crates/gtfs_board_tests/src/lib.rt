//! The tests of departure boards (`gtfs_board`, over feeds and lanes), in a crate of their own: a
//! crate with tests is proved twice, with them and without. They call public functions alone, and
//! test what the program does not show: cases over the built program and a second one beside it
//! tell that boards, pages and timetables are the right ones.
//!
//! - `cases` has worked boards, `between` those with times between timepoints, and `worked`
//!   compares them. `made` has boards of made feeds, `opening` opens boards over a feed and over
//!   its index, and `bounds` has what bounds them. `hostile` has boards of all service days.
//! - `keys` has the texts and the order of keys, `lines` lines and sheets, `pages` pages, `outputs`
//!   outputs that fail, and `refused` a departure for which there is no memory.
//! - `timetables` has timetables without a sheet, and `faults` the lines of faults.
//! - `assertions` has assertions as calls.
//!
//! The worked examples of sheets stand in `proofs/`, as lemmas that compute.
#![tactic(auto)]

#[cfg(test)]
mod assertions;
#[cfg(test)]
mod between;
#[cfg(test)]
mod bounds;
#[cfg(test)]
mod cases;
#[cfg(test)]
mod faults;
#[cfg(test)]
mod hostile;
#[cfg(test)]
mod keys;
#[cfg(test)]
mod lines;
#[cfg(test)]
mod made;
#[cfg(test)]
mod opening;
#[cfg(test)]
mod outputs;
#[cfg(test)]
mod pages;
#[cfg(test)]
mod refused;
#[cfg(test)]
mod timetables;
#[cfg(test)]
mod worked;
