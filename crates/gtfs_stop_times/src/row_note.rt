ghost use Rattle.std.specs.Prelude.{◌≡◌, ◌<◌, ◌^◌, IfOk, IsOk, if◌then◌else◌};
ghost use Rattle.gtfs_stop_times.specs.RowNotes.{noted, times_numbered};

use crate::stop_time::ReadTimes;
use gtfs_field::OutOfMemory;

// The greatest number of a trip that has room in a note: 2^29 - 1.
const MOST: u32 = u32::MAX / 8;

// What is noted of a row beside what it says, in four bytes: files have millions of rows.
#[derive(Clone, Copy)]
pub(crate) struct RowNote {
    // Three bits, and above them the number of the trip.
    pub(crate) packed: u32,
}

impl RowNote {
    // No number is left for more than 536,870,912 trips.
    #[inline(always)]
    pub(crate) fn new(
        trip: u32,
        has_headsign: bool,
        times: ReadTimes,
    ) -> Result<RowNote, OutOfMemory>
        ensures note { IfOk result (λ note. noted note ≡ record {
          trip = trip;
          has_headsign = has_headsign;
          times = times;
        }) }
        ensures room { trip < 2 ^ 29 → IsOk result }
    {
        if trip > MOST {
            return Err(OutOfMemory);
        }
        Ok(RowNote {
            packed: trip * 8 + number_of(times) * 2 + bit(has_headsign),
        })
    }

    // The number of the row's trip.
    #[inline(always)]
    pub(crate) fn trip(self) -> u32
        ensures { result ≡ (noted self).trip }
    {
        self.packed / 8
    }

    // Whether the row has a headsign.
    #[inline(always)]
    pub(crate) fn has_headsign(self) -> bool
        ensures { result ≡ (noted self).has_headsign }
    {
        self.packed % 2 == 1
    }

    // How the times of the row stand.
    #[inline(always)]
    pub(crate) fn times(self) -> ReadTimes
        ensures { result ≡ (noted self).times }
    {
        match self.packed / 2 % 4 {
            0 => ReadTimes::Clear,
            1 => ReadTimes::Unclear,
            _ => ReadTimes::Unplaced,
        }
    }
}

#[inline(always)]
fn bit(is: bool) -> u32
    ensures value { result ≡ if is then 1 else 0 }
    ensures small { result < 2 }
{
    if is { 1 } else { 0 }
}

#[inline(always)]
fn number_of(times: ReadTimes) -> u32
    ensures value { times_numbered result ≡ times }
    ensures small { result < 4 }
{
    match times {
        ReadTimes::Clear => 0,
        ReadTimes::Unclear => 1,
        ReadTimes::Unplaced => 2,
    }
}
