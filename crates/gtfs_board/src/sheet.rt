//! The timetable of a route on a day.
mod by_run;
mod columns;
mod table;
mod text;
mod times;
mod turning;

use gtfs_field::{Clock, Day, List, OutOfMemory};
pub use table::timetable;
pub use text::push_sheet;
use thiserror::Error;

/// Why a route has no timetable.
#[derive(Clone, Copy, Debug, PartialEq, Eq, Error)]
pub enum TableFault {
    /// The feed has no such route.
    #[error("unknown route")]
    UnknownRoute = 1,
    /// Memory ran out.
    #[error("out of memory")]
    OutOfMemory = 2,
}

impl From<OutOfMemory> for TableFault {
    ghost use Rattle.std.specs.Prelude.{◌≡◌};
    ghost use Rattle.gtfs_board.specs.declared.sheet.TableFault.TheVariants.{OutOfMemory as no_memory};

    ghost from_gives = { λ _ fault. fault ≡ no_memory };

    fn from(_refused: OutOfMemory) -> TableFault {
        TableFault::OutOfMemory
    }
}

/// The runs of a route that pass one list of stops in one direction on a day.
/// The feed lends its texts.
#[derive(Debug, Drop)]
pub struct Sheet<'a> {
    /// `route_id` of the route.
    pub route: &'a str,
    /// `direction_id` of the trips, 0 or 1, where they have one.
    pub direction: Option<u8>,
    /// The service day, which is not always the date on a clock.
    pub day: Day,
    /// `stop_id` of each stop time, by sequence.
    pub stops: List<&'a str>,
    /// The runs, each the second of the service day at which it starts and the `trip_id` of its
    /// trip: by their start, and runs of one start by the bytes of the id.
    pub runs: List<(u32, &'a str)>,
    /// For each stop the time of each run, None where the stop time has neither an arrival nor a
    /// departure and gets no time between.
    pub times: List<List<Option<Clock>>>,
}
