ghost use Rattle.std.specs.Prelude.{◌≡◌, ◌∷◌, ◌++◌, [], true, List, ℕ, min, IfOk, OnOk};
ghost use Rattle.gtfs_schema.specs.IdNumbers.{number_among};
ghost use Rattle.gtfs_schema.specs.Problems.{Problem as ProblemOf};
ghost use Rattle.gtfs_schema.specs.steps.FoundProblems.{Reports};
ghost use Rattle.gtfs_schema.specs.steps.Ids.{ids_of};
ghost use Rattle.gtfs_table.specs.Tables.{Dataset};
ghost use Rattle.gtfs_trip_rules.specs.KeptRows.{AllKeep};
ghost use Rattle.gtfs_stop_times.specs.KeptLists.{HasNoHeadsign};
ghost use Rattle.gtfs_trip_rules.specs.KeptOrder.{AreKeptOf};
ghost use Rattle.gtfs_trip_rules.specs.StopTimePicks.{breaks_order};
ghost use Rattle.gtfs_trip_rules.specs.TripCounts.{count_of};
ghost use Rattle.gtfs_trip_rules.specs.TripNotes.{times_noted, trip_note, trip_notes_in, NotesRow};
ghost use Rattle.gtfs_stop_times.specs.StopTimeOrder.{AreEarlier};

use crate::trips::judge::Judge;
use crate::trips::numbers::trip_number;
use crate::trips::row_counts::{RowCounts, make_room};
use gtfs_field::OutOfMemory;
use gtfs_schema::{Finder, Ids};
use gtfs_stop_times::{KeptStopTimes, StopTime, small_number};
use std::alloc::Global;
use std::collections::BTreeMap;
use std::marker::Model;

/// What the rows of `stop_times.txt` say of their trips:
/// how many name each trip, and the stop times that a feed keeps.
#[derive(Drop)]
pub struct TripNotes<'a> {
    trips: &'a Ids<'a>,
    rows: KeptStopTimes,
    // Whether each row has a sequence.
    are_sequenced: bool,
    judge: Judge,
    // The trips that trips.txt lacks in the order of their numbers, and these. The first row that
    // names such a trip gives it its number.
    names: Vec<&'a str>,
    numbers: BTreeMap<&'a str, usize>,
    // How many rows have each number. No more than two are counted, so that the counts stay in the
    // near cache.
    counts: Vec<u8>,
}

impl<'a> Model for TripNotes<'a> {
    ghost use Rattle.std.specs.Prelude.{map};
    ghost use Rattle.gtfs_schema.specs.steps.Ids.{ids_of};
    ghost use Rattle.gtfs_trip_rules.specs.TripCounts.{AreKept};
    ghost use Rattle.gtfs_trip_rules.specs.TripNotes.{Noted, note_of};
    ghost use Rattle.gtfs_trip_rules.specs.TripNumbers.{name_at};

    ghost Value = { Noted };

    ghost view = { λ n. record {
      trips = ids_of n.trips.now;
      notes = map (note_of (name_at (ids_of n.trips.now) n.names.items)) n.rows;
      rows = n.rows;
    } };

    ghost invariant = { λ n. AreKept (ids_of n.trips.now) n.numbers n.names.items n.counts.items
        n.are_sequenced n.judge n.rows };
}

impl<'a> TripNotes<'a> {
    // No notes yet, and room for those of this many rows, about the trips of trips.txt and others.
    pub(crate) fn with_room(
        alloc: Global,
        trips: &'a Ids<'a>,
        rows: usize,
    ) -> Result<TripNotes<'a>, OutOfMemory>
        ensures { IfOk result (λ notes. notes
            ≡ record { trips = ids_of trips.now; notes = []; rows = [] }) }
    {
        Ok(TripNotes {
            trips,
            rows: KeptStopTimes::with_room(alloc, rows)?,
            are_sequenced: true,
            judge: Judge::new(),
            names: Vec::new(alloc),
            numbers: BTreeMap::new(alloc),
            counts: Vec::new(alloc),
        })
    }

    // Takes note of one more row, which comes after those so far. It names this trip, which has
    // this number where trips.txt has it, and it is kept so once it has the number.
    pub(crate) fn note(
        &mut self,
        trip_id: &'a str,
        number: Option<usize>,
        kept: StopTime,
    ) -> Result<(), OutOfMemory>
        requires known { number ≡ number_among self.old.trips trip_id.now }
        requires earlier { AreEarlier kept.row self.old.rows }
        requires unnamed { HasNoHeadsign kept.stop_row }
        ensures trips { self.new.trips ≡ self.old.trips }
        ensures notes { OnOk result
            (self.new.notes ≡ self.old.notes ++ trip_note trip_id.now kept ∷ []) }
        ensures rows { OnOk result (NotesRow number kept self.old.rows self.new.rows) }
    {
        let trip = trip_number(
            self.trips,
            &mut self.numbers,
            &mut self.names,
            trip_id,
            number,
        )?;
        make_room(&mut self.counts, self.trips.len(), trip)?;
        let row = kept.of_trip(small_number(trip)?);
        self.rows.push(row)?;
        self.judge.note(&row, self.counts[trip] == 0);
        let count = &mut self.counts[trip];
        *count = (*count + 1).min(2);
        self.are_sequenced = self.are_sequenced && row.times.are_placed();
        Ok(())
    }

    // How many rows name each trip, up to two.
    pub(crate) fn counts<'n>(&'n self) -> RowCounts<'a, 'n>
        ensures counts { (trip : List ℕ) → count_of self.now.trips result.numbers.now
            result.counts.now trip ≡ min (times_noted self.now.notes trip) 2 }
        ensures trips { ids_of result.trips.ids.now ≡ self.now.trips }
    {
        RowCounts {
            trips: Finder::new(self.trips),
            numbers: &self.numbers,
            counts: &self.counts,
        }
    }

    // Whether the rows break nothing, as is mostly so: each has a sequence, and those of each trip
    // stand together and in order. Where this says no, they may break nothing too.
    pub(crate) fn are_faultless(&self) -> bool
        ensures { result ≡ true → (d : Dataset) → self.now.notes ≡ trip_notes_in d
            → (found : List ProblemOf) → Reports d breaks_order found found }
    {
        self.are_sequenced && self.judge.are_faultless()
    }

    // The rows that have a sequence, by trip, sequence and row.
    pub(crate) fn into_order(self) -> Result<KeptStopTimes, OutOfMemory>
        ensures { IfOk result (λ rows. (d : Dataset) → self.entry.notes ≡ trip_notes_in d
            → AllKeep d self.entry.rows → AreKeptOf d rows) }
    {
        let TripNotes {
            rows,
            are_sequenced,
            judge,
            ..
        } = self;
        if !are_sequenced {
            return rows.placed()?.sorted();
        }
        if judge.are_together {
            return rows.by_trips();
        }
        rows.sorted()
    }
}
