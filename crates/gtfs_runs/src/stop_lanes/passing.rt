ghost use Rattle.std.specs.Prelude.{◌≡◌, ◌≤◌, ◌+◌};
ghost use Rattle.gtfs_runs.specs.steps.NotedRows.{noted_passing};
ghost use Rattle.gtfs_runs.specs.steps.Passings.{passing_event};

use crate::departure_row::DepartureRow;
use crate::event::Event;
use gtfs_rows::TripNo;

// A stop time at which riders can leave the place of a stop,
// and how many seconds after its start a run passes it.
#[derive(Clone, Copy)]
pub(crate) struct Passing {
    pub(crate) after: u32,
    // `stop_sequence`.
    pub(crate) seq: u32,
    // The position among the stop times of the trip.
    pub(crate) row: usize,
}

impl Passing {
    // That at a departure row of a trip that starts at this second. No vehicle leaves before.
    pub(crate) fn of(row: &DepartureRow, start: u32) -> Passing
        ensures { result ≡ noted_passing start row.now }
    {
        Passing {
            after: row.left().saturating_sub(start),
            seq: row.sequence(),
            row: row.row(),
        }
    }

    // The event of the run that starts at this second.
    pub(crate) fn event(&self, trip: TripNo, run: u32) -> Event
        requires after { self.now.after ≤ 3_599_999 }
        requires run { run ≤ 7_199_999 }
        ensures { result ≡ passing_event trip.0 run self.now }
    {
        Event {
            at: run + self.after,
            trip,
            run,
            seq: self.seq,
            row: self.row,
        }
    }
}
