//! Departure boards of a GTFS feed.
//!
//! - A [`Board`] lists the departures of a stop over a [`Span`] one after another;
//!   [`write_page`] writes their lines.
//! - A [`Departure`] is what a board lists, and its [`Key`] its position there.
//!   [`push_line`] appends its line to a text.
//! - [`read_key`] and [`push_key`] read and write the text of a key,
//!   after which a board can be opened again.
//! - [`timetable`] makes the sheets of a route on a day. A [`Sheet`] has the runs in one direction
//!   along one list of stops; [`push_sheet`] appends its text.
//!
//! A board finds the next departure of many lanes. It looks at a service day only once that day
//! can hold a departure before all those that wait, so a board may span years. Many boards of
//! one feed are best opened with a [`StopIndex`], which is made once: each then looks only at
//! the trips that call at its stop.
//!
//! ```text
//! let mut board = Board::open(alloc, feed, zone, stop, span, None, Times::Given)?;
//! write_page(alloc, &mut board, 3, out)?;
//! ```
//!
//! What keys, lines and boards are stands in `specs/`. [`Feed`] is handed on from `gtfs_feed`,
//! [`StopIndex`] from `gtfs_runs`, and [`Times`], by which stop times without a time have none or
//! that of an even pace, from `gtfs_times`.
#![tactic(auto)]

mod board;
mod departure;
mod floor;
mod key;
mod law;
mod line;
mod page;
mod pieces;
mod service_days;
mod sheet;
mod showing;
mod span;
mod upcoming;

pub use board::{Board, BoardFault};
pub use departure::{Departure, Mark};
pub use gtfs_runs::{Feed, StopIndex, Times};
pub use key::{Key, push_key, read_key};
pub use law::boards_are_one;
pub use line::push_line;
pub use page::{PageFault, write_page};
pub use sheet::{Sheet, TableFault, push_sheet, timetable};
pub use span::Span;
