//! The departures of many lanes in one order, of which few are held at a time.
ghost use Rattle.std.specs.Prelude.{◌≡◌, negsuc, ◌≤ℤ◌, ◌≤◌, ◌+◌, length, IfOk, OnErr};
ghost use Rattle.gtfs_days.specs.Service.{first_service_day};
ghost use Rattle.gtfs_board.specs.Board.{AreStepsWithin};
ghost use Rattle.gtfs_board.specs.UpcomingDays.{all_of, count_of};
ghost use Rattle.gtfs_board.specs.upcoming.Candidates.{HasSettings, IsAside, AreQueued, KeepsLists, KeepsSettings, TakesFirst, rest_above, steps_so_far, taken};

mod candidate;
mod gathering;
mod queue;

use crate::service_days::Days;
use crate::upcoming::gathering::{first_due, gather};
use crate::upcoming::queue::Queue;
pub(crate) use candidate::Candidate;
use gtfs_field::OutOfMemory;
use gtfs_runs::Steps;
use std::marker::Model;

// The departures that are still to come, of which only the next of each opened day of each lane wait.
#[derive(Drop)]
pub(crate) struct Upcoming<'a> {
    days: Days<'a>,
    // The next departure, which stands outside the queue so that the least of the others is known
    // before it is taken.
    first: Option<Candidate>,
    others: Queue,
    // The first service day that is not opened.
    day: i32,
    // The instant from which departures are looked for.
    start: i64,
    // What lies above it is left.
    floor: Candidate,
    steps: Steps,
}

impl<'a> Model for Upcoming<'a> {
    ghost use Rattle.gtfs_board.specs.UpcomingDays.{IsUpcoming, upcoming_value};
    ghost use Rattle.gtfs_board.specs.upcoming.Candidates.{UpcomingValue};

    ghost Value = { UpcomingValue };

    ghost view = { λ b. upcoming_value b.days b.start b.floor b.first b.others b.steps };

    ghost invariant = { λ b. IsUpcoming b.days b.start b.floor b.first b.others b.day };
}

impl<'a> Upcoming<'a> {
    // The departures above a floor.
    pub(crate) fn open(
        days: Days<'a>,
        floor: Candidate,
        mut steps: Steps,
    ) -> Result<Upcoming<'a>, OutOfMemory>
        requires instant { negsuc 999_999_999_999 ≤ℤ floor.instant }
        requires aside { IsAside floor first_service_day (count_of days) }
        ensures rest { IfOk result (λ b. b.rest ≡ rest_above (all_of days.entry) floor) }
        ensures queued { IfOk result AreQueued }
        ensures settings { IfOk result (HasSettings (count_of days.entry)
            days.entry.lanes.greatest floor.instant days.entry.end) }
        ensures steps { IfOk result (λ b. b.steps ≤ steps + (steps_so_far b).for_days) }
    {
        let start = floor.instant;
        let day = first_due(&days, &floor);
        let mut others = Queue::new(days.alloc);
        let gathered = gather(&days, &others, None, &floor, day, &mut steps)?;
        let first = others.join(None, gathered.fresh)?;
        Ok(Upcoming {
            days,
            first,
            others,
            day: gathered.day,
            start,
            floor,
            steps,
        })
    }

    // Takes the first of the rest: none where nothing is left, and from then on always.
    pub(crate) fn next(&mut self) -> Result<Option<Candidate>, OutOfMemory>
        ensures first { IfOk result (TakesFirst self.old self.new) }
        ensures kept { OnErr result (KeepsLists self.old self.new) }
        ensures settings { KeepsSettings self.old self.new }
        ensures queued { AreQueued self.new }
        ensures steps { IfOk result (λ o.
            AreStepsWithin (taken o) (steps_so_far self.old) (steps_so_far self.new)) }
    {
        let first = match self.first {
            Some(first) => first,
            None => return Ok(None),
        };
        let head = self.days.after(&first, &mut self.steps);
        let gathered = gather(
            &self.days,
            &self.others,
            head,
            &first,
            self.day,
            &mut self.steps,
        )?;
        // The last that can be refused: until here nothing but the count of steps is written.
        self.first = self.others.join(head, gathered.fresh)?;
        self.floor = first;
        self.day = gathered.day;
        Ok(Some(first))
    }

    // How many wait.
    pub(crate) fn held(&self) -> usize
        ensures { result ≡ length self.now.queue }
    {
        match self.first {
            Some(_) => self.others.len() + 1,
            None => 0,
        }
    }

    // How often lanes were asked.
    pub(crate) fn steps(&self) -> u64
        ensures { result ≡ self.now.steps }
    {
        self.steps.count()
    }
}
