ghost use Rattle.std.specs.Prelude.{◌≡◌, ◌++◌, ◌+◌, ◌<◌, [], drop, length, map, nat_eq, slice_get, slice_index_or, slice_set, take, IfOk, None, Some};
ghost use Rattle.std.specs.List.{IsDistinct};
ghost use Rattle.csv.specs.Records.{Rising};
ghost use Rattle.gtfs_stop_times.specs.HeadsignedRows.{with_headsign, with_headsign_at};
ghost use Rattle.gtfs_stop_times.specs.KeptLists.{no_row, stop_times_at, AreListed};

use crate::by_trip::StopTimesByTrip;
use crate::optional::OptionalHeadsign;
use crate::ranges::{in_order, ranges};
use crate::row_note::RowNote;
use crate::row_numbers::RowNumbers;
use crate::stop_row::StopRow;
use crate::stop_time::StopTime;
use gtfs_field::{List, OutOfMemory};
use std::marker::Model;

/// Stop times that are given the numbers of their headsigns, one after the other. The numbers are
/// written into the rows where they stand, and need no list of their own. They are seen as the stop
/// times that are left, and the rows of those that were given theirs.
#[derive(Drop)]
pub struct HeadsignedStopTimes {
    // Rows and order are those of the stop times as they were kept,
    // and so are notes until all were given theirs.
    rows: Vec<StopRow>,
    notes: Vec<RowNote>,
    order: RowNumbers,
    // How many there are.
    len: usize,
    // How many were given theirs.
    given: usize,
}

impl Model for HeadsignedStopTimes {
    ghost use Rattle.gtfs_stop_times.specs.HeadsignedRows.{headsigned_at, AreGiven, Headsigned};

    ghost Value = { Headsigned };

    ghost view = { λ h. headsigned_at h.rows.items h.notes.items h.order h.given };

    ghost invariant = { λ h. AreGiven h.rows.items h.notes.items h.order h.len h.given };
}

impl HeadsignedStopTimes {
    // Stop times as they were kept, of which none has been given a headsign.
    pub(crate) fn of(
        rows: Vec<StopRow>,
        notes: Vec<RowNote>,
        order: RowNumbers,
    ) -> HeadsignedStopTimes
        requires listed { AreListed rows.items notes.items order }
        requires once { IsDistinct nat_eq order }
        ensures left { result.left ≡ stop_times_at rows.items notes.items order }
        ensures none_given { result.rows ≡ [] }
    {
        let len = order.len();
        HeadsignedStopTimes {
            rows,
            notes,
            order,
            len,
            given: 0,
        }
    }

    /// How many stop times there are.
    pub fn len(&self) -> usize
        ensures { result ≡ length self.now.rows + length self.now.left }
    {
        self.len
    }

    /// The first stop time that is left, without its headsign.
    #[inline(always)]
    pub fn peek(&self) -> StopTime
        requires { 0 < length self.now.left }
        ensures { slice_get self.now.left 0 ≡ Some result }
    {
        let row = self.order.get(self.given);
        let note = self.notes[row as usize];
        StopTime {
            trip: note.trip(),
            row,
            has_headsign: note.has_headsign(),
            times: note.times(),
            stop_row: self.rows[row as usize],
        }
    }

    /// Gives the first stop time that is left the number of its headsign, or none.
    #[inline(always)]
    pub fn give(&mut self, headsign: OptionalHeadsign)
        requires { 0 < length self.old.left }
        ensures left { self.new.left ≡ drop 1 self.old.left }
        ensures given { self.new.rows ≡ self.old.rows
            ++ map (λ s. with_headsign_at s headsign) (take 1 self.old.left) }
    {
        let row = self.order.get(self.given);
        name(&mut self.rows, row, headsign);
        self.given += 1;
    }

    /// Lets go what was noted of the rows, where none is left. It takes no memory.
    pub fn drop_notes(&mut self)
        requires { self.old.left ≡ [] }
        ensures { self.new ≡ self.old }
    {
        let alloc = *self.notes.allocator();
        self.notes = Vec::new(alloc);
    }

    /// The stop times of all trips, where none is left and those of each trip begin at these starts.
    ///
    /// Where the rows of each trip follow each other in the file, as in most feeds,
    /// they stay where they are.
    ///
    /// # Errors
    /// `OutOfMemory` where memory is refused.
    pub fn into_by_trip(self, starts: List<usize>) -> Result<StopTimesByTrip, OutOfMemory>
        requires all_given { self.left ≡ [] }
        requires rising { Rising 0 starts (length self.rows) }
        requires from_first { slice_index_or starts 0 (length self.rows) ≡ 0 }
        ensures rows { IfOk result (λ by_trip. by_trip.rows ≡ self.rows) }
        ensures starts { IfOk result (λ by_trip. by_trip.starts ≡ starts) }
    {
        let HeadsignedStopTimes {
            rows,
            order,
            len,
            ..
        } = self;
        let alloc = *rows.allocator();
        match ranges(alloc, &order, starts.as_slice())? {
            Some(ranges) => Ok(StopTimesByTrip::at_ranges(rows, ranges, len)),
            None => {
                let rows = in_order(alloc, &rows, &order)?;
                Ok(StopTimesByTrip::new(List::new(rows), starts))
            }
        }
    }
}

// Writes a headsign, or none, into a row without one.
#[inline(always)]
fn name(rows: &mut Vec<StopRow>, row: u32, headsign: OptionalHeadsign)
    requires within { row < length rows.old.items }
    requires unnamed { (slice_index_or rows.old.items row no_row).stop_headsign ≡ None }
    ensures { rows.new.items ≡ slice_set rows.old.items row
        (with_headsign (slice_index_or rows.old.items row no_row) headsign) }
{
    // Most rows get none, and need not be touched.
    if headsign.get().is_some() {
        rows[row as usize].stop_headsign = headsign;
    }
}
