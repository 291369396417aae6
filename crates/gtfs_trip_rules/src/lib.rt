//! The rules about the trips of a GTFS Schedule dataset, their times, their frequencies and their
//! services.
//!
//! - [`report_stop_times`] judges the rows of `stop_times.txt` in one pass, and notes
//!   what they say of their trips ([`TripNotes`]); [`report_counts`] and
//!   [`report_order`] judge the trips by them.
//! - [`report_overlaps`] judges the periods of the frequencies of a trip, and [`report_services`]
//!   the days on which a service runs.
//!
//! [`RowsById`] has the rows of a file by an id that several may have.
//!
//! Each call adds to what was found exactly those of its problems that the dataset has.
#![tactic(auto)]

mod periods;
mod services;
mod stop_times;
mod trips;

pub use periods::report_overlaps;
pub use services::by_id::RowsById;
pub use services::report_services;
pub use stop_times::report_stop_times;
pub use trips::counts::report_counts;
pub use trips::notes::TripNotes;
pub use trips::order::report_order;
