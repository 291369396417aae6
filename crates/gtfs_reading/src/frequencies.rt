//! The rows of frequencies.txt by trip (GTFS Schedule Reference, `frequencies.txt`).

ghost use Rattle.std.specs.Ordering.{nat_cmp};
ghost use Rattle.std.specs.Prelude.{◌≡◌, ◌<◌, [], IfOk, OnOk, codes, length, map, slice_index_or};
ghost use Rattle.gtfs_schema.specs.Problems.{Passes};
ghost use Rattle.gtfs_schema.specs.steps.Ids.{first_rows, ids_of, rows_by_number};
ghost use Rattle.gtfs_reading.specs.NamedTrips.{AreByTrip, AreNamedTrips, with_mark};
ghost use Rattle.gtfs_reading.specs.CutStopTimes.{IsCutInto};
ghost use Rattle.gtfs_rows.specs.TransferOrder.{by_key};
ghost use Rattle.gtfs_rows.specs.ContentRead.{content_of, frequency_in, rows_of, trip_in};
ghost use Rattle.gtfs_rows.specs.RowsInMemory.{frequency_of};
ghost use Rattle.gtfs_table.specs.FieldOffsets.{parts};
ghost use Rattle.gtfs_table.specs.declared.file.File.TheVariants as file;

use crate::columns::column_indices;
use crate::numbers::{clock, positive};
use crate::read_choices::exact_times;
use crate::references::number;
use gtfs_field::{List, OutOfMemory};
use gtfs_rows::Frequency;
use gtfs_schema::{Finder, Ids, frequencies_columns};
use gtfs_table::{File, Tables};
use gtfs_trip_rules::RowsById;
use std::alloc::Global;
use std::marker::Model;

// The frequencies of all trips, trip after trip, and where those of each trip begin.
#[derive(Drop)]
pub(crate) struct TripFrequencies {
    pub(crate) rows: List<Frequency>,
    pub(crate) starts: List<usize>,
}

// The frequencies of all trips by their numbers, in each trip by start.
pub(crate) fn frequencies(
    alloc: Global,
    tables: &Tables,
    trips: &Ids<'_>,
) -> Result<TripFrequencies, OutOfMemory>
    requires passes { Passes tables.now }
    requires trips { trips.now ≡ first_rows tables.now file.Trips (codes "trip_id") }
    ensures rows { IfOk result (λ f. map (map frequency_of) (parts f.starts f.rows)
        ≡ map (λ t. t.frequencies) (content_of tables.now).trips) }
    ensures cut { IfOk result (λ f. IsCutInto (length (ids_of trips.now)) f.starts f.rows) }
{
    let file = FrequencyFile::new(alloc, tables)?;
    let mut starts = Vec::with_capacity(alloc, trips.len())?;
    let mut rows = Vec::new(alloc);
    file.push_by_trip(alloc, trips, &mut starts, &mut rows)
        .and(Ok(TripFrequencies {
            rows: List::new(rows),
            starts: List::new(starts),
        }))
}

// Marks a trip, if there is one.
fn mark(named: &mut Vec<bool>, trip: Option<usize>)
    ensures { named.new.items ≡ with_mark named.old.items trip }
{
    match trip {
        Some(trip) if trip < named.len() => named[trip] = true,
        _ => {}
    }
}

// frequencies.txt with its columns found, and its rows by trip.
#[derive(Drop)]
struct FrequencyFile<'a> {
    tables: &'a Tables,
    rows: RowsById<'a>,
    columns: [Option<usize>; 5],
}

impl<'a> Model for FrequencyFile<'a> {
    ghost use Rattle.gtfs_table.specs.Tables.{Dataset};
    ghost use Rattle.gtfs_reading.specs.FrequencyColumns.{AreFrequencyColumns};

    ghost Value = { Dataset };

    ghost view = { λ f. f.tables.now };

    ghost invariant = { AreFrequencyColumns };
}

impl<'a> FrequencyFile<'a> {
    fn new(alloc: Global, tables: &'a Tables) -> Result<FrequencyFile<'a>, OutOfMemory>
        ensures { IfOk result (λ file. file ≡ tables.now) }
    {
        let columns = column_indices(tables, File::Frequencies, &frequencies_columns());
        Ok(FrequencyFile {
            tables,
            rows: RowsById::new(alloc, tables, File::Frequencies, columns[0])?,
            columns,
        })
    }

    // Fills both lists, which have one owner whichever trip finds no memory.
    fn push_by_trip(
        &self,
        alloc: Global,
        trips: &Ids<'_>,
        starts: &mut Vec<usize>,
        rows: &mut Vec<Frequency>,
    ) -> Result<(), OutOfMemory>
        requires passes { Passes self.now }
        requires trips { trips.now ≡ first_rows self.now file.Trips (codes "trip_id") }
        requires no_starts { starts.old.items ≡ [] }
        requires no_rows { rows.old.items ≡ [] }
        ensures { OnOk result (AreByTrip self.now trips.now starts.new.items rows.new.items) }
    {
        let named = self.named_trips(alloc, trips)?;
        for number in 0..trips.len() {
            let periods = self.of_number(alloc, trips, &named, number)?;
            starts.push(rows.len())?;
            rows.extend_from_slice(&periods)?;
        }
        Ok(())
    }

    // Of each trip whether a row names it. In most feeds few are named, and the others need no look
    // at their ids, which lie far apart.
    fn named_trips(&self, alloc: Global, trips: &Ids<'_>) -> Result<Vec<bool>, OutOfMemory>
        ensures { IfOk result (λ named. AreNamedTrips self.now trips.now named.items) }
    {
        let trip_id = self.columns[0];
        let mut named = Vec::new(alloc);
        named.resize(trips.len(), false)?;
        let mut trips = Finder::new(trips);
        for (_, record) in self.tables.rows(File::Frequencies) {
            mark(&mut named, number(&mut trips, record.value(trip_id)));
        }
        Ok(named)
    }

    // The frequencies of the trip of a number, by start.
    fn of_number(
        &self,
        alloc: Global,
        trips: &Ids<'_>,
        named: &[bool],
        number: usize,
    ) -> Result<Vec<Frequency>, OutOfMemory>
        requires passes { Passes self.now }
        requires trips { trips.now ≡ first_rows self.now file.Trips (codes "trip_id") }
        requires named { AreNamedTrips self.now trips.now named.now }
        requires within { number < length (ids_of trips.now) }
        ensures { IfOk result (λ periods. map frequency_of periods.items
            ≡ (trip_in self.now (slice_index_or (rows_by_number trips.now) number 0)).frequencies) }
    {
        if !named[number] {
            return Ok(Vec::new(alloc));
        }
        let trip_id = self.tables.column(File::Trips, "trip_id");
        let record = self.tables.record(File::Trips, trips.row(number));
        self.of_trip(alloc, record.value(trip_id))
    }

    // The frequencies of a trip by start.
    fn of_trip(&self, alloc: Global, trip_id: &str) -> Result<Vec<Frequency>, OutOfMemory>
        requires { Passes self.now }
        ensures { IfOk result (λ periods. map frequency_of periods.items
            ≡ by_key nat_cmp (λ r. r.start_time)
            (map (frequency_in self.now) (rows_of self.now file.Frequencies trip_id.now))) }
    {
        let mut periods = Vec::new(alloc);
        for row in self.rows.of(trip_id) {
            periods.push(self.frequency(row.1))?;
        }
        periods.sort_unstable_by_key(|period| period.start_time.seconds());
        Ok(periods)
    }

    // The frequency of a row.
    fn frequency(&self, row: usize) -> Frequency
        ensures { frequency_of result ≡ frequency_in self.now row }
    {
        let record = self.tables.record(File::Frequencies, row);
        Frequency {
            start_time: clock(record.value(self.columns[1])),
            end_time: clock(record.value(self.columns[2])),
            headway_secs: positive(record.value(self.columns[3])),
            exact_times: exact_times(record.value(self.columns[4])),
        }
    }
}
