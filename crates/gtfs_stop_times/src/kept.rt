ghost use Rattle.std.specs.Prelude.{◌≡◌, ◌<◌, ◌∷◌, ◌++◌, [], filter, length, map, nat_eq, slice_get, slice_index_or, IfOk, IsPermutation, OnErr, OnOk, Some};
ghost use Rattle.std.specs.List.{IsDistinct};
ghost use Rattle.std.specs.List.Sorted.{IsSorted};
ghost use Rattle.gtfs_stop_times.specs.KeptLists.{no_note, HasNoHeadsign, HoldsOldOr, KeepsBefore};
ghost use Rattle.gtfs_stop_times.specs.KeptStretches.{AreRising};
ghost use Rattle.gtfs_stop_times.specs.KeptTimes.{is_placed};
ghost use Rattle.gtfs_stop_times.specs.RowNotes.{noted};
ghost use Rattle.gtfs_stop_times.specs.StopTimeOrder.{AreEarlier, kept_cmp};

use crate::headsigned::HeadsignedStopTimes;
use crate::ranked_rows::by_ranks;
use crate::ranks::Ranks;
use crate::room::room_for;
use crate::row_note::RowNote;
use crate::row_numbers::RowNumbers;
use crate::stop_row::StopRow;
use crate::stop_time::StopTime;
use crate::together::by_trips;
use gtfs_field::OutOfMemory;
use std::alloc::Global;
use std::marker::Model;
use std::mem::size_of;

/// Stop times in an order, each a row of `stop_times.txt` with its trip. The rows themselves stay
/// in the order of the file, whichever order the stop times are in.
#[derive(Drop)]
pub struct KeptStopTimes {
    // By the numbers of rows. At a number that is not that of a row stands any.
    rows: Vec<StopRow>,
    notes: Vec<RowNote>,
    // The numbers of the rows, in the order of the stop times.
    order: RowNumbers,
}

impl Model for KeptStopTimes {
    ghost use Rattle.std.specs.Prelude.{List};
    ghost use Rattle.gtfs_stop_times.specs.declared.stop_time.StopTime.{StopTime as StopTimeValue};
    ghost use Rattle.gtfs_stop_times.specs.KeptLists.{stop_times_at, AreListed};

    ghost Value = { List StopTimeValue };

    ghost view = { λ k. stop_times_at k.rows.items k.notes.items k.order };

    ghost invariant = { λ k. AreListed k.rows.items k.notes.items k.order };
}

impl KeptStopTimes {
    /// None yet, and room for those of a file with this many records.
    ///
    /// # Errors
    /// `OutOfMemory` where memory is refused.
    pub fn with_room(alloc: Global, records: usize) -> Result<KeptStopTimes, OutOfMemory>
        ensures { IfOk result (λ kept. kept ≡ []) }
    {
        // Records have their numbers from 1.
        let end = records.saturating_add(1);
        Ok(KeptStopTimes {
            rows: Vec::with_capacity(alloc, room_for(end, size_of::<StopRow>()))?,
            notes: Vec::with_capacity(alloc, room_for(end, size_of::<RowNote>()))?,
            order: RowNumbers::new(alloc),
        })
    }

    /// Adds a stop time, whose row comes after those of all others. It has no headsign yet.
    ///
    /// # Errors
    /// `OutOfMemory` where memory is refused, or its trip has a number above 536,870,911.
    pub fn push(&mut self, stop_time: StopTime) -> Result<(), OutOfMemory>
        requires earlier { AreEarlier stop_time.row self.old }
        requires unnamed { HasNoHeadsign stop_time.stop_row }
        ensures added { OnOk result (self.new ≡ self.old ++ stop_time ∷ []) }
        ensures kept { OnErr result (self.new ≡ self.old) }
    {
        let note = RowNote::new(stop_time.trip, stop_time.has_headsign, stop_time.times)?;
        put(&mut self.rows, stop_time.row as usize, stop_time.stop_row)?;
        put(&mut self.notes, stop_time.row as usize, note)?;
        self.order.push(stop_time.row)?;
        Ok(())
    }

    /// How many there are.
    pub fn len(&self) -> usize
        ensures { result ≡ length self.now }
    {
        self.order.len()
    }

    /// The stop time at an index.
    #[inline(always)]
    pub fn get(&self, at: usize) -> StopTime
        requires { at < length self.now }
        ensures { slice_get self.now at ≡ Some result }
    {
        let row = self.order.get(at);
        let note = self.notes[row as usize];
        StopTime {
            trip: note.trip(),
            row,
            has_headsign: note.has_headsign(),
            times: note.times(),
            stop_row: self.rows[row as usize],
        }
    }

    /// The same, to be given their headsigns.
    pub fn into_headsigned(self) -> HeadsignedStopTimes
        requires once { IsDistinct nat_eq (map (λ s. s.row) self) }
        ensures left { result.left ≡ self }
        ensures none_given { result.rows ≡ [] }
    {
        let KeptStopTimes { rows, notes, order } = self;
        HeadsignedStopTimes::of(rows, notes, order)
    }

    /// A copy of them, to be given their headsigns.
    ///
    /// # Errors
    /// `OutOfMemory` where memory is refused.
    pub fn to_headsigned(&self, alloc: Global) -> Result<HeadsignedStopTimes, OutOfMemory>
        requires once { IsDistinct nat_eq (map (λ s. s.row) self.now) }
        ensures left { IfOk result (λ copy. copy.left ≡ self.now) }
        ensures none_given { IfOk result (λ copy. copy.rows ≡ []) }
    {
        let rows = copy(alloc, &self.rows)?;
        let notes = copy(alloc, &self.notes)?;
        let order = self.order.copy(alloc)?;
        Ok(HeadsignedStopTimes::of(rows, notes, order))
    }

    /// Those whose rows have a sequence.
    ///
    /// # Errors
    /// `OutOfMemory` where memory is refused.
    pub fn placed(self) -> Result<KeptStopTimes, OutOfMemory>
        ensures { IfOk result (λ kept. kept ≡ filter (λ r. is_placed r.times) self) }
    {
        let KeptStopTimes { rows, notes, order } = self;
        let order = placed(*notes.allocator(), &notes, &order)?;
        Ok(KeptStopTimes { rows, notes, order })
    }

    /// The same by trip, sequence and row.
    ///
    /// # Errors
    /// `OutOfMemory` where memory is refused.
    pub fn sorted(self) -> Result<KeptStopTimes, OutOfMemory>
        ensures sorted { IfOk result (IsSorted kept_cmp) }
        ensures moved { IfOk result (IsPermutation self) }
    {
        let KeptStopTimes { rows, notes, order } = self;
        let order = by_ranks(*notes.allocator(), &Ranks::of(&rows, &notes), &order)?;
        Ok(KeptStopTimes { rows, notes, order })
    }

    /// The same by trip, sequence and row, where those of each trip stand together and ascend.
    ///
    /// # Errors
    /// `OutOfMemory` where memory is refused.
    pub fn by_trips(self) -> Result<KeptStopTimes, OutOfMemory>
        ensures sorted { IfOk result (λ kept. AreRising self → IsSorted kept_cmp kept) }
        ensures moved { IfOk result (IsPermutation self) }
    {
        let KeptStopTimes { rows, notes, order } = self;
        let order = by_trips(*notes.allocator(), &Ranks::of(&rows, &notes), order)?;
        Ok(KeptStopTimes { rows, notes, order })
    }
}

// A list of the same items.
fn copy<T: Copy>(alloc: Global, items: &[T]) -> Result<Vec<T>, OutOfMemory>
    ensures { IfOk result (λ copy. copy.items ≡ items.now) }
{
    let mut list = Vec::with_capacity(alloc, items.len())?;
    list.extend_from_slice(items)?;
    Ok(list)
}

// Puts an item at an index, at or before which nothing is kept.
// It stands at all indices on the way there.
#[inline(always)]
fn put<T: Copy>(list: &mut Vec<T>, at: usize, item: T) -> Result<(), OutOfMemory>
    ensures before { KeepsBefore at list.old.items list.new.items }
    ensures here { OnOk result ((z : T) → slice_index_or list.new.items at z ≡ item) }
    ensures long { OnOk result (at < length list.new.items) }
    ensures no_others { HoldsOldOr item list.old.items list.new.items }
{
    // Mostly it stands at the end, and no call is needed.
    if list.len() != at {
        list.resize(at, item)?;
    }
    list.push(item)?;
    Ok(())
}

// Of these numbers those of rows with a sequence.
fn placed(alloc: Global, notes: &[RowNote], order: &RowNumbers) -> Result<RowNumbers, OutOfMemory>
    ensures { IfOk result (λ rows. rows
        ≡ filter (λ n. is_placed (noted (slice_index_or notes.now n no_note)).times) order.now) }
{
    let mut rows = RowNumbers::new(alloc);
    for at in 0..order.len() {
        let row = order.get(at);
        if is_placed(notes, row) {
            rows.push(row)?;
        }
    }
    Ok(rows)
}

// Whether a row has a sequence.
fn is_placed(notes: &[RowNote], row: u32) -> bool
    ensures { result ≡ is_placed (noted (slice_index_or notes.now row no_note)).times }
{
    match notes.get(row as usize) {
        Some(note) => note.times().are_placed(),
        None => false,
    }
}
