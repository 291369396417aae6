//! Which row of the first feed each row of the second one becomes: the one that it is joined with,
//! or the stop that it is near.
mod agencies;
mod near_stops;
mod routes;
mod services;
mod stop_twins;
mod stops;
mod trips;
pub(crate) mod twins;
