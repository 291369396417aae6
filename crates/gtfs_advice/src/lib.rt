//! Advice on a GTFS Schedule feed that passed the validator: what is allowed, and yet is most often
//! a mistake.
//!
//! [`advise`] lists it: for each file, each of its subjects and each code, in this order, those
//! whose rule holds. Each rule stands in `specs/`, over the content of the feed alone.
#![tactic(auto)]

mod advice;
mod agencies;
mod all_advice;
mod code;
mod days_without_service;
mod frequencies;
mod named_routes;
mod reached_and_left;
mod repeated_trips;
mod routes;
mod served_days;
mod service_seasons;
mod services;
mod stop_times;
mod stops;
mod text_faults;
mod trip_courses;
mod trips;
mod waiting_services;

pub use advice::{Advice, Subject};
pub use all_advice::advise;
pub use code::Code;
