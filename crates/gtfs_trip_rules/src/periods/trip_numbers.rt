ghost use Rattle.std.specs.Prelude.{◌≡◌, ℕ, List, None, IfOk};
ghost use Rattle.gtfs_trip_rules.specs.CoveredTrips.{AreDistinct, IsNumbered, number_of};

use gtfs_field::OutOfMemory;
use std::alloc::Global;
use std::collections::BTreeMap;

// The numbers of the trips that have periods, in the order in which rows first name them.
#[derive(Drop)]
pub(crate) struct TripNumbers<'a> {
    pub(crate) numbers: BTreeMap<&'a str, usize>,
    ghost distinct: { AreDistinct numbers },
}

impl<'a> TripNumbers<'a> {
    pub(crate) fn new(alloc: Global) -> TripNumbers<'a>
        ensures { (trip : List ℕ) → number_of result.numbers trip ≡ None }
    {
        TripNumbers {
            numbers: BTreeMap::new(alloc),
        }
    }

    // The number of a trip. One that is new gets the next.
    pub(crate) fn number(&mut self, trip: &'a str) -> Result<usize, OutOfMemory>
        ensures { IfOk result (λ n. IsNumbered self.old.numbers self.new.numbers trip.now n) }
    {
        if let Some(number) = self.numbers.get(trip) {
            return Ok(*number);
        }
        let number = self.numbers.len();
        self.numbers.insert(trip, number)?;
        Ok(number)
    }
}
