ghost use Rattle.std.specs.Prelude.{◌≡◌};
ghost use Rattle.gtfs_stop_times.specs.KeptTimes.{arrives, departs, are_clear, is_placed, is_untimed, with_trip};

use crate::stop_row::StopRow;

/// How the times of a stop time stand.
#[derive(Clone, Copy)]
pub enum ReadTimes {
    /// Each of them is readable, or empty.
    Clear,
    /// One of them is not as it has to be.
    Unclear,
    /// The row has no sequence, and so no position in its trip. Its times are not asked for.
    Unplaced,
}

/// A stop time: a row of stop_times.txt as it was read, with its trip (GTFS Schedule Reference,
/// `stop_times.txt`).
#[derive(Clone, Copy)]
pub struct StopTime {
    /// The number of its trip: how many ids of trips.txt come before that trip's id by their bytes.
    pub trip: u32,
    /// The number of its row.
    pub row: u32,
    /// Whether its row has a headsign, a field that is not blank.
    pub has_headsign: bool,
    /// How its times stand.
    pub times: ReadTimes,
    /// What the row says, without its headsign.
    pub stop_row: StopRow,
}

impl ReadTimes {
    // Whether each of them is readable, or empty.
    #[inline(always)]
    fn are_clear(self) -> bool
        ensures { result ≡ are_clear self }
    {
        match self {
            ReadTimes::Clear => true,
            ReadTimes::Unclear => false,
            ReadTimes::Unplaced => false,
        }
    }

    /// Whether the row has a sequence, and so a position in its trip.
    #[inline(always)]
    pub fn are_placed(self) -> bool
        ensures { result ≡ is_placed self }
    {
        match self {
            ReadTimes::Clear => true,
            ReadTimes::Unclear => true,
            ReadTimes::Unplaced => false,
        }
    }
}

impl StopTime {
    /// The same with this number of its trip.
    #[inline(always)]
    pub fn of_trip(self, trip: u32) -> StopTime
        ensures { result ≡ with_trip self trip }
    {
        StopTime { trip, ..self }
    }

    /// When it is reached, in seconds: at its arrival time, and else at its departure time.
    #[inline(always)]
    pub fn arrives(&self) -> Option<u32>
        ensures { result ≡ arrives self.now }
    {
        if !self.times.are_clear() {
            return None;
        }
        self.stop_row.arrives().map(|time| time.seconds())
    }

    /// When it is left, in seconds: at its departure time, and else at its arrival time.
    #[inline(always)]
    pub fn departs(&self) -> Option<u32>
        ensures { result ≡ departs self.now }
    {
        if !self.times.are_clear() {
            return None;
        }
        self.stop_row.departs().map(|time| time.seconds())
    }

    /// Whether both of its times are empty.
    #[inline(always)]
    pub fn is_untimed(&self) -> bool
        ensures { result ≡ is_untimed self.now }
    {
        self.times.are_clear()
            && self.stop_row.arrival_time.get().is_none()
            && self.stop_row.departure_time.get().is_none()
    }
}
