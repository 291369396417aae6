ghost use Rattle.std.specs.Prelude.{◌≡◌, ◌<◌, ◌-◌, ◌^◌, ℕ, length, get_or, OnOk};
ghost use Rattle.gtfs_schema.specs.steps.Ids.{ids_of};
ghost use Rattle.gtfs_trip_rules.specs.TripCounts.{are_few};
ghost use Rattle.gtfs_trip_rules.specs.TripNumbers.{number_of_trip};

use gtfs_field::OutOfMemory;
use gtfs_schema::Finder;
use std::collections::BTreeMap;

// How many rows of stop_times.txt name each trip, up to two.
#[derive(Drop)]
pub(crate) struct RowCounts<'a, 'n> {
    pub(crate) trips: Finder<'a>,
    // The numbers of the trips that trips.txt lacks.
    pub(crate) numbers: &'n BTreeMap<&'a str, usize>,
    // By the numbers of the trips.
    pub(crate) counts: &'n [u8],
}

impl RowCounts<'_, '_> {
    // Whether fewer than two rows name a trip.
    pub(crate) fn are_few(&mut self, trip_id: &str) -> bool
        ensures few { result ≡ are_few (ids_of self.old.trips.ids.now) self.old.numbers.now
            self.old.counts.now trip_id.now }
        ensures trips { self.new.trips.ids.now ≡ self.old.trips.ids.now }
        ensures numbers { self.new.numbers.now ≡ self.old.numbers.now }
        ensures counts { self.new.counts.now ≡ self.old.counts.now }
    {
        match self.number(trip_id) {
            Some(number) => self.counts.get(number).copied().unwrap_or(0) < 2,
            None => true,
        }
    }

    // The number of a trip, if it has one.
    fn number(&mut self, trip_id: &str) -> Option<usize>
        ensures number { result
            ≡ number_of_trip (ids_of self.old.trips.ids.now) self.old.numbers.now trip_id.now }
        ensures trips { self.new.trips.ids.now ≡ self.old.trips.ids.now }
        ensures numbers { self.new.numbers.now ≡ self.old.numbers.now }
        ensures counts { self.new.counts.now ≡ self.old.counts.now }
    {
        match self.trips.find(trip_id) {
            Some(found) => Some(found.number),
            None => self.numbers.get(trip_id).copied(),
        }
    }
}

// Makes room for the count of a trip of this number, and for those of this many trips.
pub(crate) fn make_room(counts: &mut Vec<u8>, trips: usize, trip: usize) -> Result<(), OutOfMemory>
    requires { trip < 2 ^ 64 - 1 }
    ensures same { (n : ℕ) → get_or counts.new.items n 0 ≡ get_or counts.old.items n 0 }
    ensures room { OnOk result (trip < length counts.new.items) }
{
    if counts.len() <= trip {
        counts.resize(trips.max(trip + 1), 0)?;
    }
    Ok(())
}
