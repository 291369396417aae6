ghost use Rattle.std.specs.Prelude.{◌≡◌, ◌≤◌, ◌+◌, IfOk, drop, length, take};

use crate::event::Event;
use gtfs_field::OutOfMemory;
use std::alloc::Global;
use std::marker::Model;
use std::rc::Rc;

// Some of a list of events that several lanes share: those from an index on.
#[derive(Drop)]
pub struct EventRange {
    all: Rc<Vec<Event>>,
    start: usize,
    len: usize,
}

impl Model for EventRange {
    ghost use Rattle.std.specs.Prelude.{List, ◌≤◌, ◌+◌, drop, length, take};
    ghost use Rattle.gtfs_runs.specs.declared.event.Event.{Event};

    ghost Value = { List Event };

    ghost view = { λ r. take r.len (drop r.start r.all.value.items) };

    ghost invariant = { λ r. r.start + r.len ≤ length r.all.value.items };
}

impl EventRange {
    // All of these events.
    pub(crate) fn new(alloc: Global, events: Vec<Event>) -> Result<EventRange, OutOfMemory>
        ensures { IfOk result (λ range. range ≡ events.items) }
    {
        let len = events.len();
        match Rc::new(alloc, events) {
            Ok(all) => Ok(EventRange { all, start: 0, len }),
            Err(_) => Err(OutOfMemory),
        }
    }

    // So many of them from an index on. No event is copied.
    pub(crate) fn part(&self, start: usize, len: usize) -> Result<EventRange, OutOfMemory>
        requires { start + len ≤ length self.now }
        ensures { IfOk result (λ part. part ≡ take len (drop start self.now)) }
    {
        let all = self.all.clone()?;
        Ok(EventRange {
            all,
            start: self.start + start,
            len,
        })
    }

    // How many events there are. It looks at none of them.
    pub(crate) fn len(&self) -> usize
        ensures { result ≡ length self.now }
    {
        self.len
    }

    // The events.
    pub(crate) fn as_slice(&self) -> &[Event]
        ensures { result.now ≡ self.now }
    {
        &self.all.as_ref()[self.start..self.start + self.len]
    }
}
