ghost use Rattle.std.specs.Prelude.{◌≡◌, ◌+◌, ◌*◌, ◌<◌, ◌^◌};
ghost use Rattle.gtfs_stop_times.specs.KeptLists.{stop_time_at};
ghost use Rattle.gtfs_stop_times.specs.StopTimeOrder.{rank};

use crate::row_note::RowNote;
use crate::stop_row::StopRow;

// The ranks of rows, which stand in lists by their numbers.
#[derive(Clone, Copy)]
pub(crate) struct Ranks<'a> {
    pub(crate) rows: &'a [StopRow],
    pub(crate) notes: &'a [RowNote],
}

impl<'a> Ranks<'a> {
    #[inline(always)]
    pub(crate) fn of(rows: &'a [StopRow], notes: &'a [RowNote]) -> Ranks<'a>
        ensures rows { result.rows.now ≡ rows.now }
        ensures notes { result.notes.now ≡ notes.now }
    {
        Ranks { rows, notes }
    }

    // The rank of a row: 0 where the lists have none.
    #[inline(always)]
    pub(crate) fn rank(&self, row: u32) -> u64
        ensures value { result ≡ rank (stop_time_at self.now.rows.now self.now.notes.now row) }
        ensures sequence { (stop_time_at self.now.rows.now
            self.now.notes.now row).stop_row.stop_sequence < 2 ^ 32 }
    {
        let trip = self.trip(row);
        let sequence = self.sequence(row);
        ranked(trip, sequence)
    }

    #[inline(always)]
    pub(crate) fn trip(&self, row: u32) -> u32
        ensures { result ≡ (stop_time_at self.now.rows.now self.now.notes.now row).trip }
    {
        match self.notes.get(row as usize) {
            Some(note) => note.trip(),
            None => 0,
        }
    }

    fn sequence(&self, row: u32) -> u32
        ensures { result
            ≡ (stop_time_at self.now.rows.now self.now.notes.now row).stop_row.stop_sequence }
    {
        match self.rows.get(row as usize) {
            Some(stop_row) => stop_row.stop_sequence,
            None => 0,
        }
    }
}

// A number that grows with the trip, and within a trip with the sequence:
// one comparison in place of two.
#[inline(always)]
fn ranked(trip: u32, sequence: u32) -> u64
    ensures value { result ≡ trip * 2 ^ 32 + sequence }
    ensures sequence { sequence < 2 ^ 32 }
{
    (u64::from(trip) << 32) + u64::from(sequence)
}
