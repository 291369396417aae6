//! The rules about the rows of a GTFS Schedule dataset: files and their headers, single fields, the
//! values of one row beside each other, keys and references.
//!
//! Each call reports the problems of some codes, files or columns: it adds to what was
//! found exactly those of them that the dataset has. The rows of `stop_times.txt` are
//! left to `gtfs_trip_rules`, which judges them in one pass; whether the file is there,
//! and its header, are judged here.
#![tactic(auto)]

mod fields;
mod files;
mod headers;
mod keys;
mod presence;
mod references;
mod rows;
mod rule;
mod single_keys;
mod spans;
mod stop_kinds;
mod zones;

pub use files::report_files;
pub use headers::report_headers;
pub use rows::report_rows;
