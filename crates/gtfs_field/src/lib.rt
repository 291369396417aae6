//! The values of a GTFS field: every kind of text that a feed's files hold is read here to a value,
//! and every value is written as its one canonical text.
//!
//! - [`Clock`], [`Day`], [`Colour`] and [`Coord`] are the values: small, `Copy` and ordered. A
//!   count is a `u32`, an instant an `i64` of seconds since 1970-01-01T00:00:00Z.
//! - `read_time`, `read_date`, `read_colour`, `read_count`, `read_coord` and `read_instant` take a
//!   text that is cut of its blanks and answer its value or a [`FieldFault`]. They take no memory.
//! - `push_time`, `push_date`, `push_colour`, `push_count` and `push_coord` append the canonical
//!   text of a value, all of it or nothing.
//! - [`Text`] and [`List`] are what public records of the crates above hold
//!   in place of `String` and `Vec`.
//!
//! ```text
//! let clock = read_time(text).ok()?;                       // 25:10:00 is 90,600 seconds
//! push_time(alloc, text, Clock::from_seconds(25_500))?;    // appends 07:05:00
//! ```
//!
//! What a text of each kind means stands in `specs/Kinds.antt`,
//! the canonical texts in `specs/Canonical.antt`.
#![tactic(auto)]

mod ascii;
mod clock;
mod colour;
mod coord;
mod count;
mod day;
mod digits;
mod fault;
mod instant;
mod list;
mod text;

pub use clock::{Clock, push_time, read_time};
pub use colour::{Colour, push_colour, read_colour};
pub use coord::{Axis, Coord, push_coord, read_coord};
pub use count::{push_count, read_count};
pub use day::{Day, push_date, read_date};
pub use fault::FieldFault;
pub use instant::read_instant;
pub use list::List;
/// Memory was refused. Every crate of the toolkit answers this one error for it.
pub use std::alloc::AllocError as OutOfMemory;
pub use text::Text;
