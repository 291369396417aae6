ghost use Rattle.std.specs.Prelude.{◌≡◌, ◌||◌, is_some, IfOk};
ghost use Rattle.gtfs_table.specs.Tables.{record_at};
ghost use Rattle.gtfs_table.specs.declared.file.File.TheVariants as file;
ghost use Rattle.gtfs_schema.specs.steps.ColumnView.{kind_of};
ghost use Rattle.gtfs_trip_rules.specs.KeptRow.{kept_row, row_said, times_of};
ghost use Rattle.gtfs_trip_rules.specs.StopTimeFields.{fault_of, is_fault, value_in};
ghost use Rattle.gtfs_table.specs.Rows.{records_in};
ghost use Rattle.gtfs_trip_rules.specs.StopTimes.{stop_time_text, AreStopTimeColumns, IsReading, IsStopTime};
ghost use Rattle.gtfs_schema.specs.Columns.{id};
ghost use Rattle.gtfs_schema.specs.FieldValues.{word};

use crate::stop_times::reading::{
    Reading, read_beside, read_clock, read_drop_off_type, read_number, read_pickup_type,
    read_timepoint,
};
use gtfs_field::{Clock, OutOfMemory};
use gtfs_schema::{Code, Kind, fault_code};
use gtfs_stop_times::{
    DropOffType, OptionalClock, OptionalHeadsign, PickupType, ReadTimes, StopNo, StopRow, StopTime,
    Timepoint, small_number,
};
use gtfs_table::{File, Record, Tables};

// The indices of the kept columns of stop_times.txt, and how many fields its header has.
#[derive(Clone, Copy)]
pub(crate) struct StopTimeColumns<'a> {
    pub(crate) tables: &'a Tables,
    pub(crate) width: usize,
    pub(crate) trip_id: Option<usize>,
    pub(crate) arrival_time: Option<usize>,
    pub(crate) departure_time: Option<usize>,
    pub(crate) stop_id: Option<usize>,
    pub(crate) stop_sequence: Option<usize>,
    pub(crate) stop_headsign: Option<usize>,
    pub(crate) pickup_type: Option<usize>,
    pub(crate) drop_off_type: Option<usize>,
    pub(crate) timepoint: Option<usize>,
}

// A row of stop_times.txt, each field of which was cut and read once.
#[derive(Clone, Copy)]
pub(crate) struct ReadStopTime<'a> {
    pub(crate) row: usize,
    // How many fields the row has.
    pub(crate) fields: usize,
    pub(crate) trip_id: Reading<&'a str>,
    pub(crate) arrival_time: Reading<Clock>,
    pub(crate) departure_time: Reading<Clock>,
    pub(crate) stop_id: Reading<&'a str>,
    pub(crate) stop_sequence: Reading<u32>,
    // What is wrong with this field.
    pub(crate) stop_headsign: Option<Code>,
    pub(crate) has_headsign: bool,
    pub(crate) pickup_type: Reading<PickupType>,
    pub(crate) drop_off_type: Reading<DropOffType>,
    pub(crate) timepoint: Reading<Timepoint>,
}

impl ReadStopTime<'_> {
    // The row as it is kept, before it has the number of its trip; its stop has this number.
    #[inline(always)]
    pub(crate) fn kept(&self, stop: Option<usize>) -> Result<StopTime, OutOfMemory>
        ensures { IfOk result (λ kept. kept ≡ kept_row self.now stop) }
    {
        Ok(StopTime {
            trip: 0,
            row: small_number(self.row)?,
            has_headsign: self.has_headsign,
            times: self.times(),
            stop_row: self.stop_row(stop),
        })
    }

    // How its times stand.
    #[inline(always)]
    fn times(&self) -> ReadTimes
        ensures { result ≡ times_of (is_some (value_in self.now.stop_sequence))
            (is_fault self.now.arrival_time || is_fault self.now.departure_time) }
    {
        if self.stop_sequence.value().is_none() {
            ReadTimes::Unplaced
        } else if self.arrival_time.is_fault() || self.departure_time.is_fault() {
            ReadTimes::Unclear
        } else {
            ReadTimes::Clear
        }
    }

    // What the row says, where all is as scheduled that it does not say otherwise.
    #[inline(always)]
    fn stop_row(&self, stop: Option<usize>) -> StopRow
        ensures { result ≡ row_said self.now stop }
    {
        StopRow {
            stop_id: StopNo(stop.unwrap_or(0)),
            arrival_time: OptionalClock::new(self.arrival_time.value()),
            departure_time: OptionalClock::new(self.departure_time.value()),
            stop_sequence: self.stop_sequence.value().unwrap_or(0),
            stop_headsign: OptionalHeadsign::new(None),
            pickup_type: self.pickup_type.value().unwrap_or(PickupType::Regular),
            drop_off_type: self.drop_off_type.value().unwrap_or(DropOffType::Regular),
            timepoint: self.timepoint.value(),
        }
    }
}

impl<'a> StopTimeColumns<'a> {
    pub(crate) fn of(tables: &'a Tables) -> StopTimeColumns<'a>
        ensures { AreStopTimeColumns tables.now result }
    {
        StopTimeColumns {
            tables,
            width: tables.fields(File::StopTimes, 1),
            trip_id: tables.column(File::StopTimes, "trip_id"),
            arrival_time: tables.column(File::StopTimes, "arrival_time"),
            departure_time: tables.column(File::StopTimes, "departure_time"),
            stop_id: tables.column(File::StopTimes, "stop_id"),
            stop_sequence: tables.column(File::StopTimes, "stop_sequence"),
            stop_headsign: tables.column(File::StopTimes, "stop_headsign"),
            pickup_type: tables.column(File::StopTimes, "pickup_type"),
            drop_off_type: tables.column(File::StopTimes, "drop_off_type"),
            timepoint: tables.column(File::StopTimes, "timepoint"),
        }
    }

    // What a row says, whose ids were read.
    #[inline(always)]
    pub(crate) fn stop_time(
        &self,
        row: usize,
        record: &Record<'a>,
        trip_id: Reading<&'a str>,
        stop_id: Reading<&'a str>,
    ) -> ReadStopTime<'a>
        requires columns { AreStopTimeColumns self.now.tables.now self.now }
        requires fields { «record».now
            ≡ record_at (records_in self.now.tables.now file.StopTimes) row }
        requires trip { IsReading id (λ t. word t.now)
            (stop_time_text self.now.tables.now row "trip_id") trip_id }
        requires stop { IsReading id (λ t. word t.now)
            (stop_time_text self.now.tables.now row "stop_id") stop_id }
        ensures says { IsStopTime self.now.tables.now row result }
        ensures trip { result.trip_id ≡ trip_id.entry }
        ensures stop { result.stop_id ≡ stop_id.entry }
    {
        let arrival = record.value(self.arrival_time);
        let departure = record.value(self.departure_time);
        let arrival_time = read_clock(arrival);
        let departure_time = read_beside(departure, arrival, &arrival_time);
        let headsign = record.value(self.stop_headsign);
        ReadStopTime {
            row,
            fields: record.len(),
            trip_id,
            arrival_time,
            departure_time,
            stop_id,
            stop_sequence: read_number(record.value(self.stop_sequence)),
            stop_headsign: fault_in_text(Kind::Text, headsign),
            has_headsign: !headsign.is_empty(),
            pickup_type: read_pickup_type(record.value(self.pickup_type)),
            drop_off_type: read_drop_off_type(record.value(self.drop_off_type)),
            timepoint: read_timepoint(record.value(self.timepoint)),
        }
    }
}

// What is wrong with a text of a kind, if it is not empty.
#[inline(always)]
fn fault_in_text(kind: Kind, text: &str) -> Option<Code>
    ensures { result ≡ fault_of (kind_of kind) text.now }
{
    if text.is_empty() {
        None
    } else {
        fault_code(kind, text)
    }
}
