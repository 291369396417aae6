//! The rows of the merged feed, list by list, under their new ids and with their new numbers.
mod agencies;
pub(crate) mod all_lists;
mod frequencies;
mod headsigns;
mod routes;
mod services;
mod stop_times;
mod stops;
mod transfers;
mod trips;
mod with_ids;
