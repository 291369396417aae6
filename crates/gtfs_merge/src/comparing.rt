//! Whether two rows are the same, their own ids apart.
pub(crate) mod agencies;
pub(crate) mod frequencies;
pub(crate) mod routes;
pub(crate) mod services;
pub(crate) mod stop_times;
pub(crate) mod stops;
pub(crate) mod trips;
mod values;
