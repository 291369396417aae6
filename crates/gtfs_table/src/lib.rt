//! The files of a GTFS Schedule dataset as tables of text.
//!
//! A dataset lies in one folder, as files under their own names (GTFS Schedule Reference, "Dataset
//! Files"). [`Folders`] is any device that holds folders. [`Tables`] are the nine kept files of a
//! folder ([`File`]) as records of fields, with the names of what else it holds:
//!
//! - [`Tables::read`] reads a folder, file after file, and each file piece after piece, so that its
//!   bytes are never whole in memory beside its records. [`Tables::state`] tells whether a file is
//!   there and is UTF-8 ([`State`]).
//! - [`Tables::value`] is the value of a column in a row, and [`Tables::column`] with
//!   [`Tables::field`] the same for one column in many rows. Row 1 is the header.
//! - [`Tables::rows`] hands out the rows of a file ([`Rows`]): the records after
//!   the header of which not all fields are blank, each with its number.
//!   [`Tables::row`] is one of them by its number.
//! - [`Tables::record`] is any record ([`Record`]), for a caller that reads many of its fields: it
//!   is looked up once, and not once a field.
//! - [`Tables::empty`], [`Tables::push_record`] and [`Tables::push_field`] make tables, and
//!   [`Tables::write`] gives the text of one, which reads back.
//!
//! A table keeps all its fields in one buffer, so a file takes about as much memory again as it has
//! bytes, and a field is found in constant time.
//!
//! [`plain_character`] gives a space for a control character,
//! so that no text of a table breaks a line.
//!
//! All that `gtfs_devices` has, its folders and outputs, is handed on here.
//!
//! ```text
//! let tables = Tables::read(alloc, folders, dir)?;
//! let stop_id = tables.column(File::StopTimes, "stop_id");
//! for (n, record) in tables.rows(File::StopTimes) {
//!     let stop = record.value(stop_id);
//!     text.push_str(format!(in alloc; "{n} {stop};")?.as_str())?;
//! }
//! ```
#![tactic(auto)]

mod blanks;
mod blocks;
mod csv_reading;
mod csv_writing;
mod file;
mod long_records;
mod offsets;
mod record;
mod records;
mod rows;
mod runs;
mod short_records;
mod state;
mod table;
mod table_reader;
mod tables;
mod texts;

pub use blanks::plain_character;
pub use file::File;
pub use gtfs_devices::{
    DiskFolders, Failed, FileReader, FolderFault, Folders, MemoryFolders, MemoryOut, Out, OutFault,
    WriteOut, write_text,
};
pub use record::Record;
pub use rows::Rows;
pub use state::State;
pub use tables::Tables;
