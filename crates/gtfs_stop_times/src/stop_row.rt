ghost use Rattle.std.specs.Prelude.{◌≡◌, is_some};
ghost use Rattle.gtfs_stop_times.specs.RowTimes.{left_at, reached_at};

use crate::numbers::StopNo;
use crate::optional::{OptionalClock, OptionalHeadsign};
use crate::stop_time_choices::{DropOffType, PickupType, Timepoint};
use gtfs_field::Clock;

/// A row of `stop_times.txt`, without its trip (GTFS Schedule Reference, `stop_times.txt`).
///
/// Feeds have millions of these, so it has 32 bytes: a missing time and a missing headsign take no
/// more room than one that is there.
#[derive(Clone, Copy, Debug, PartialEq, Eq)]
pub struct StopRow {
    pub stop_id: StopNo,
    pub arrival_time: OptionalClock,
    pub departure_time: OptionalClock,
    /// 0 to 2,147,483,647, rising along the trip.
    pub stop_sequence: u32,
    pub stop_headsign: OptionalHeadsign,
    pub pickup_type: PickupType,
    pub drop_off_type: DropOffType,
    pub timepoint: Option<Timepoint>,
}

impl StopRow {
    /// When a vehicle arrives: the arrival time or, if it is missing, the departure time.
    #[inline(always)]
    pub fn arrives(&self) -> Option<Clock>
        ensures { result ≡ reached_at self.now }
    {
        self.arrival_time.get().or(self.departure_time.get())
    }

    /// When a vehicle departs: the departure time or, if it is missing, the arrival time.
    #[inline(always)]
    pub fn departs(&self) -> Option<Clock>
        ensures { result ≡ left_at self.now }
    {
        self.departure_time.get().or(self.arrival_time.get())
    }

    /// Whether it has an arrival time or a departure time.
    #[inline(always)]
    pub fn is_timed(&self) -> bool
        ensures { result ≡ is_some (left_at self.now) }
    {
        self.departs().is_some()
    }
}
