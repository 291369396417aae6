ghost use Rattle.std.specs.Prelude.{◌≡◌, ℕ, ◌&&◌, ◌||◌, Bool, false, nat_eq, IfOk, MatchOption, OnOk};
ghost use Rattle.gtfs_trip_rules.specs.PeriodSpans.{AreApart, AreFilled, IsMet, covers, shares};

use gtfs_field::OutOfMemory;
use std::alloc::Global;
use std::collections::BTreeMap;

// The seconds of numbered trips that periods cover, as spans of which no two share a second.
#[derive(Drop)]
pub(crate) struct Covered {
    // The end of each span, by the number of its trip and its start.
    pub(crate) spans: BTreeMap<(usize, u32), u32>,
    ghost filled: { AreFilled spans },
    ghost apart: { AreApart spans },
}

impl Covered {
    pub(crate) fn new(alloc: Global) -> Covered
        ensures { (trip : ℕ) (start end : ℕ) → covers result.spans trip start end ≡ false }
    {
        Covered {
            spans: BTreeMap::new(alloc),
        }
    }

    // Whether some second of a period is covered. From then on all of them are.
    pub(crate) fn meet(&mut self, trip: usize, start: u32, end: u32) -> Result<bool, OutOfMemory>
        ensures answer { IfOk result (λ meets. meets ≡ covers self.old.spans trip start end) }
        ensures grown { OnOk result ((t : ℕ) (s e : ℕ) → covers self.new.spans t s e
            ≡ (covers self.old.spans t s e || (nat_eq t trip && shares start end s e))) }
    {
        let meets = self.meets(trip, start, end);
        if meets {
            self.add(trip, start, end)?;
        } else {
            self.put(trip, start, end)?;
        }
        Ok(meets)
    }

    // Whether some second of a period is covered.
    fn meets(&self, trip: usize, start: u32, end: u32) -> bool
        ensures { result ≡ covers self.now.spans trip start end }
    {
        self.span_met(trip, start, end).is_some()
    }

    // A span of the trip that shares a second with a period.
    fn span_met(&self, trip: usize, start: u32, end: u32) -> Option<(u32, u32)>
        ensures { MatchOption result (covers self.now.spans trip start end ≡ false)
            (IsMet self.now.spans trip start end) }
    {
        if start >= end {
            return None;
        }
        match self.spans.range((trip, 0)..(trip, end)).next_back() {
            Some((key, last_end)) if *last_end > start => Some((key.1, *last_end)),
            _ => None,
        }
    }

    // Covers the seconds of a period. Each span is taken out once at most.
    fn add(&mut self, trip: usize, start: u32, end: u32) -> Result<(), OutOfMemory>
        ensures { OnOk result ((t : ℕ) (s e : ℕ) → covers self.new.spans t s e
            ≡ (covers self.old.spans t s e || (nat_eq t trip && shares start end s e))) }
    {
        if start >= end {
            return Ok(());
        }
        let mut first = start;
        let mut past = end;
        while let Some((met_start, met_end)) = self.span_met(trip, first, past) {
            self.spans.remove(&(trip, met_start));
            first = first.min(met_start);
            past = past.max(met_end);
        }
        self.put(trip, first, past)
    }

    // Covers the seconds of a period of which none is covered.
    fn put(&mut self, trip: usize, start: u32, end: u32) -> Result<(), OutOfMemory>
        requires { covers self.old.spans trip start end ≡ false }
        ensures { OnOk result ((t : ℕ) (s e : ℕ) → covers self.new.spans t s e
            ≡ (covers self.old.spans t s e || (nat_eq t trip && shares start end s e))) }
    {
        if start >= end {
            return Ok(());
        }
        self.spans.insert((trip, start), end)?;
        Ok(())
    }
}
