//! Stops of a feed that lie near a stop of another feed.
//!
//! [`Nearby`] is made of the stops of one feed. [`Nearby::find`] gives the number of the first
//! of them that is near a stop of another one: of its type, name and parent, and at most so
//! many millionths of a degree away.
//!
//! When stops are near stands in `specs/NearRows.antt`.
#![tactic(auto)]

mod area;
mod block;
mod listed;
mod nearby;
mod placed_stop;
mod run;
mod search;
mod tree;

pub use nearby::Nearby;
