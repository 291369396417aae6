//! The stop times of a GTFS Schedule feed as typed values, and how millions of them are kept:
//! the rows of `stop_times.txt`, with numbers in place of ids.
//!
//! - A [`StopRow`] is a stop time without its trip. It is small and `Copy`: a time that may be
//!   missing is an [`OptionalClock`] of four bytes, and a headsign an [`OptionalHeadsign`], a
//!   number in a list of headsigns.
//! - [`PickupType`], [`DropOffType`] and [`Timepoint`] are its choices,
//!   with the numbers of the standard.
//! - A [`StopNo`] is the rank of an id among the ids of all stops, by bytes, from 0; a
//!   [`HeadsignNo`] is the index of a headsign.
//! - A [`StopTime`] is a row with its trip, its number in the file, and how its times stand.
//!   [`KeptStopTimes`] are such rows as a check keeps them, until a feed gives them the numbers of
//!   their headsigns ([`HeadsignedStopTimes`]).
//! - [`StopTimesByTrip`] are the stop times of all trips, which may stay in the order of the file;
//!   [`stretch`] finds the items of one trip in a list of those of all trips. [`StopLists`] are the
//!   stops of trips alone. A [`TripOf`] is a trip of one of two feeds, whose stop times are joined.
//! - [`room_for`] tells for how many items a list of millions asks.
//!
//! The numbers of choices are in `specs/StopTimeChoices.antt`; a value that may be missing, and its four
//! bytes, in `specs/OptionalNumbers.antt`; when a stop time is reached and left in `specs/RowTimes.antt`,
//! which times are kept in `specs/KeptTimes.antt`, the order of stop times in
//! `specs/StopTimeOrder.antt`, how they are kept in
//! `specs/KeptLists.antt`, and what they are given in `specs/HeadsignedRows.antt`; the stop times of
//! all trips, as they are seen and where they stand, in `specs/StopTimesByTrip.antt`, their stops in
//! `specs/StopLists.antt`, those of two feeds in `specs/JoinedStopTimes.antt`, and what other numbers make of
//! a stop time in `specs/RenumberedRows.antt`.
#![tactic(auto)]

mod by_trip;
mod headsigned;
mod joined;
mod kept;
mod marks;
mod numbers;
mod optional;
mod ranges;
mod ranked_rows;
mod ranks;
mod renumber;
mod room;
mod row_note;
mod row_numbers;
mod stop_lists;
mod stop_row;
mod stop_time;
mod stop_time_choices;
mod stretches;
mod together;

pub use by_trip::{RowRange, StopTimesByTrip};
pub use headsigned::HeadsignedStopTimes;
pub use joined::TripOf;
pub use kept::KeptStopTimes;
pub use numbers::{HeadsignNo, StopNo, small_number};
pub use optional::{OptionalClock, OptionalHeadsign};
pub use room::room_for;
pub use stop_lists::StopLists;
pub use stop_row::StopRow;
pub use stop_time::{ReadTimes, StopTime};
pub use stop_time_choices::{DropOffType, PickupType, Timepoint};
pub use stretches::stretch;
