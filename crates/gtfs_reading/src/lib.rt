//! The typed rows of a feed, of tables that passed the validator.
//!
//! [`FeedRows::new`] reads all rows but the stop times of tables that passed, by the ids of a
//! [`Passed`](gtfs_rules::Passed). [`StopTimes::new`] makes the lists of stop times of it, whose
//! fields were read when the tables were checked, but for headsigns. [`FeedRows::with_stop_times`]
//! makes [`Parts`](gtfs_rows::Parts) of both. A [`StopTimesDraft`] makes the same lists, and needs
//! the tables no more: they can be let go before its lists are made.
//!
//! ```text
//! let rows = FeedRows::new(alloc, passed.tables(), &passed.ids().network)?;
//! let stop_times = StopTimes::new(alloc, random, passed)?;
//! rows.with_stop_times(stop_times, headsigns)
//! ```
//!
//! Each list stands in the order of its keys: ids by their bytes, transfers by the six parts of
//! their keys, frequencies by trip and start. An id is looked up once and is its number in that
//! order from then on; no row is looked for in a list from its beginning.
//!
//! Each file has a module: `agencies`, `stops`, `routes`, `trips`, `transfers`, `frequencies`, and
//! `calendar` and `dates`, of which `services` are made. `columns` finds the columns of a file
//! once, in the order of its schema, and a row is read by their places there. The ids of files are
//! [`NetworkIds`](gtfs_schema::NetworkIds), and `service_ids` has those of services, which come
//! of two files. `texts`, `numbers`, `read_choices` and `references` read a field. `gathered` has the
//! lists of stop times while they are made, and `headsigns` the headsigns by number.
//!
//! What the rows are is said in `gtfs_rows`: `specs/ContentRead.antt` there has the content of a
//! dataset. `specs/FeedRows.antt` here says that the lists are that content,
//! `specs/NamedTexts.antt` what a row with numbers stands for, and `specs/StopTimeLists.antt`
//! what the lists of stop times are.
#![tactic(auto)]

mod agencies;
mod calendar;
mod columns;
mod dates;
mod draft;
mod feed_rows;
mod frequencies;
mod gathered;
mod headsigns;
mod numbers;
mod plain;
mod read_choices;
mod references;
mod routes;
mod service_ids;
mod services;
mod stop_times;
mod stops;
mod texts;
mod transfers;
mod trips;

pub use draft::StopTimesDraft;
pub use feed_rows::FeedRows;
pub use stop_times::StopTimes;
