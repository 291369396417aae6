ghost use Rattle.std.specs.Prelude.{◌≡◌, ◌&&◌, ◌∷◌, [], List, false, true};
ghost use Rattle.gtfs_trip_rules.specs.JudgedTrips.{as_last, ends_timed, fits, goes_on, is_late, left_of, names_trip, repeats_last, rises, Judges};
ghost use Rattle.gtfs_stop_times.specs.declared.stop_time.StopTime.{StopTime as StopTimeValue};

use crate::trips::order::is_left_later;
use gtfs_stop_times::StopTime;

// What is kept of the last row.
#[derive(Clone, Copy)]
pub(crate) struct Last {
    pub(crate) trip: u32,
    pub(crate) sequence: u32,
    pub(crate) is_untimed: bool,
    // When its trip was left last.
    pub(crate) left: Option<u32>,
}

// Judges rows as they come, each by the one before it, which is in the cache still.
#[derive(Clone, Copy)]
pub(crate) struct Judge {
    pub(crate) last: Option<Last>,
    // Whether none was late, and no trip began or ended without times.
    pub(crate) all_fit: bool,
    // Whether the rows of each trip stand together, and their sequences ascend.
    pub(crate) are_together: bool,
}

impl Judge {
    pub(crate) fn new() -> Judge
        ensures { Judges result [] }
    {
        Judge {
            last: None,
            all_fit: true,
            are_together: true,
        }
    }

    // Judges one more row. Where its trip is said to be new, none of the rows so far is of it.
    #[inline(always)]
    pub(crate) fn note(&mut self, row: &StopTime, is_new: bool)
        ensures { (rows : List StopTimeValue) → Judges self.old rows
            → (is_new ≡ true → names_trip rows row.now ≡ false)
            → Judges self.new (row.now ∷ rows) }
    {
        self.all_fit = self.all_fit && self.fits(row);
        self.are_together = self.are_together && (is_new || self.rises_to(row));
        self.last = Some(self.as_last(row));
    }

    // Whether the rows break nothing by their order, if these were all.
    pub(crate) fn are_faultless(&self) -> bool
        ensures { result ≡ ((self.now.are_together && self.now.all_fit)
            && ends_timed self.now.last) }
    {
        self.are_together && self.all_fit && self.ends_timed()
    }

    // Whether the last row has a time, if there is one.
    #[inline(always)]
    fn ends_timed(&self) -> bool
        ensures { result ≡ ends_timed self.now.last }
    {
        match &self.last {
            Some(last) => !last.is_untimed,
            None => true,
        }
    }

    // Whether a row is of the last one's trip, and has a greater sequence.
    #[inline(always)]
    fn rises_to(&self, row: &StopTime) -> bool
        ensures { result ≡ rises self.now.last row.now }
    {
        match &self.last {
            Some(last) => { row.trip == last.trip && last.sequence < row.stop_row.stop_sequence }
            None => false,
        }
    }

    // Whether a row is of the last one's trip.
    #[inline(always)]
    pub(crate) fn goes_on(&self, row: &StopTime) -> bool
        ensures { result ≡ goes_on self.now.last row.now }
    {
        match &self.last {
            Some(last) => row.trip == last.trip,
            None => false,
        }
    }

    // Whether a row has the trip and the sequence of the last one.
    #[inline(always)]
    pub(crate) fn repeats(&self, row: &StopTime) -> bool
        ensures { result ≡ repeats_last self.now.last row.now }
    {
        match &self.last {
            Some(last) => row.trip == last.trip && row.stop_row.stop_sequence == last.sequence,
            None => false,
        }
    }

    // Whether a row is reached before its trip was left last.
    #[inline(always)]
    pub(crate) fn is_late(&self, row: &StopTime) -> bool
        ensures { result ≡ is_late self.now.last row.now }
    {
        is_left_later(self.left_of(row), row.arrives())
    }

    // When a row's trip was left last.
    #[inline(always)]
    fn left_of(&self, row: &StopTime) -> Option<u32>
        ensures { result ≡ left_of self.now.last row.now }
    {
        match &self.last {
            Some(last) if row.trip == last.trip => last.left,
            _ => None,
        }
    }

    // Whether a row is not late,
    // and where a trip begins with it that trip and the one before have times at their ends.
    #[inline(always)]
    fn fits(&self, row: &StopTime) -> bool
        ensures { result ≡ fits self.now.last row.now }
    {
        !self.is_late(row) && (self.goes_on(row) || (self.ends_timed() && !row.is_untimed()))
    }

    // A row as the last one.
    #[inline(always)]
    fn as_last(&self, row: &StopTime) -> Last
        ensures { result ≡ as_last self.now.last row.now }
    {
        Last {
            trip: row.trip,
            sequence: row.stop_row.stop_sequence,
            is_untimed: row.is_untimed(),
            left: row.departs().or(self.left_of(row)),
        }
    }
}
