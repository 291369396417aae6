//! The written form of a feed: the nine files of a GTFS Schedule dataset, each with the header of
//! its kept columns and a row for each row of the feed, its values as canonical texts.
//!
//! - [`tables`] are all nine files as tables.
//! - [`file_text`] is the text of one, made without a table: what
//!   [`Tables::write`](gtfs_table::Tables::write) gives of its table. [`file_text_in`] makes the same
//!   in memory that is handed in.
//! - [`has_longer_file`] tells whether the text of some file is longer than a limit,
//!   and makes none.
//!
//! What the written form of a content is stands in `specs/WrittenContent.antt` of `gtfs_rows`, and
//! what is promised of it in `specs/WrittenForm.antt` there. `specs/TakenRecords.antt` says how rows
//! are taken, field by field, into a table or a text.
#![tactic(auto)]

mod agencies;
mod bounds;
mod calendar;
mod calendar_dates;
mod digits;
mod fields;
mod file_texts;
mod files;
mod frequencies;
mod headers;
mod names;
mod quoting;
mod room_rows;
mod routes;
mod sink;
mod stop_ids;
mod stop_times;
mod stops;
mod table_rows;
mod text_room;
mod text_rows;
mod transfers;
mod trips;

pub use file_texts::{file_text, file_text_in, has_longer_file};
pub use files::tables;
