//! On which days a service of a GTFS feed runs, where such a day begins in a time zone, and what
//! the clocks of that zone show.
//!
//! - A [`Service`] is a row of `calendar.txt`, if any, which is a [`Week`], and its rows of
//!   `calendar_dates.txt`, each a day and an [`Exception`]. `active` says whether it runs on a day,
//!   and `next_active` finds the first day on which it runs: neither walks over days without
//!   service. `trim` is the service on one side of a service day, a [`Cut`].
//! - A [`Zone`] is read from a zone file (TZif, RFC 9636). `origin` is the instant from which the
//!   times of a service day count: noon less twelve hours, which on a day with a change of clocks
//!   is not midnight. `civil` is the local date and time at an instant, a [`Civil`]. A
//!   [`ZoneClock`] tells the same, and faster where many instants lie close together.
//!
//! A day is a `gtfs_field::Day`, and an instant is a number of seconds since
//! 1970-01-01T00:00:00Z. A service day is a day from 1900-01-01 to 9998-12-31, of which
//! [`FIRST_SERVICE_DAY`] and [`LAST_SERVICE_DAY`] are the numbers.
//!
//! ```text
//! let week = Week { days, start, end };
//! let exceptions = [(april(10), Added), (april(3), Removed)];
//! let service = Service::new(rt.alloc(), Some(week), &exceptions)?;
//! let next = service.next_active(day);
//!
//! let zone = Zone::read(alloc, file)?;
//! let origin = zone.origin(alloc, day).ok()?;
//! ```
//!
//! A stop time of 25:10:00 on that day is 90,600 seconds after `origin`.
//!
//! Zones exist in which two days begin at one instant, or a later day begins earlier: where a
//! place skips a day, or moves its clocks by more than a day. So nothing may be concluded from the
//! order of days on the order of their origins, but each lies within 93,599 seconds of 86,400 times
//! the number of its day.
#![tactic(auto)]

mod civil;
mod cut;
mod exception;
mod law;
mod service;
mod service_day;
mod trimmed;
mod week;
mod zone;
mod zone_clock;

pub use civil::{Civil, CivilFault};
pub use cut::Cut;
pub use exception::Exception;
pub use law::zones_are_one;
pub use service::Service;
pub use service_day::{FIRST_SERVICE_DAY, LAST_SERVICE_DAY};
pub use week::Week;
pub use zone::{Zone, ZoneFault};
pub use zone_clock::ZoneClock;
