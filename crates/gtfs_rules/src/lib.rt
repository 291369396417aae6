//! The validator of a GTFS Schedule dataset:
//! what is wrong with its tables, each problem once and in one order.
//!
//! - A [`Problem`] is a file, a row, a [`Code`] and a column. Row 0 stands for the file as a whole,
//!   row 1 is the header, and an empty column is none. A [`FileName`] is one of the nine kept files
//!   or another name in the folder.
//! - [`check`] finds every problem of a dataset's tables, in time that grows as n log n.
//! - A [`Report`] holds the problems of a dataset, strictly ascending: exactly those that it has.
//!   [`Report::passed`] gives the tables back as a [`Passed`] exactly where no problem is an error.
//! - A [`Code`] is an error, whose name begins with `E`, or a warning, whose name begins with `W`.
//!   [`Code::text`] says what is wrong in a few words.
//!
//! ```text
//! let report = check(alloc, &tables)?;
//! for problem in report.problems() {
//!     let (code, file, row) = (problem.code, problem.file.as_str(), problem.row);
//!     println!(rt; "{} {file}:{row} {}", code.name(), code.text())?;
//! }
//! let Ok(passed) = report.passed() else {
//!     bail!("{dir} has errors");
//! };
//! ```
//!
//! The words of the contracts stand on one page, `specs/Words.antt`,
//! which names where each is defined.
#![tactic(auto)]

mod checks;
mod passed;
mod report;

pub use checks::check;
pub use gtfs_schema::{Code, FileName, Problem};
pub use gtfs_stop_times::{KeptStopTimes, StopTime};
pub use passed::Passed;
pub use report::Report;
