//! The lists of stop times while they are made.

ghost use Rattle.std.specs.Prelude.{◌≡◌, ◌++◌, ◌-◌, [], length, not, replicate, take, IfOk, OnOk};
ghost use Rattle.gtfs_schema.specs.Problems.{Passes};
ghost use Rattle.gtfs_rows.specs.ContentRead.{content_of};
ghost use Rattle.gtfs_rules.specs.StopTimes.{AreStopTimes};
ghost use Rattle.gtfs_reading.specs.GatheredStopTimes.{AreGathered, IsEmptyFor};
ghost use Rattle.gtfs_table.specs.Rows.{is_empty, records_in};
ghost use Rattle.gtfs_table.specs.Tables.{field_under, record_at};
ghost use Rattle.gtfs_table.specs.declared.file.File.TheVariants as file;

use crate::headsigns::Headsigns;
use gtfs_field::OutOfMemory;
use gtfs_stop_times::{HeadsignedStopTimes, StopTime};
use gtfs_table::{File, Tables};
use std::alloc::Global;
use std::hash::RandomState;

// The stop times, and the lists of those that were given their headsigns.
#[derive(Drop)]
pub(crate) struct Gathered {
    // How many trips there are in all.
    pub(crate) trips: usize,
    pub(crate) stop_times: HeadsignedStopTimes,
    // Where those of each trip begin, up to the trip of the last one that was given its headsign.
    pub(crate) starts: Vec<usize>,
    pub(crate) headsigns: Headsigns,
}

impl Gathered {
    // These stop times of this many trips, before the first is given its headsign.
    pub(crate) fn new(
        alloc: Global,
        random: RandomState,
        stop_times: HeadsignedStopTimes,
        trips: usize,
    ) -> Result<Gathered, OutOfMemory>
        requires { stop_times.rows ≡ [] }
        ensures empty { IfOk result (IsEmptyFor trips) }
        ensures left { IfOk result (λ g. g.stop_times.left ≡ stop_times.left) }
        ensures random { IfOk result (λ g. g.headsigns.random ≡ random) }
    {
        Ok(Gathered {
            trips,
            stop_times,
            starts: Vec::with_capacity(alloc, trips)?,
            headsigns: Headsigns::new(alloc, random),
        })
    }

    // Gives all stop times, those of a dataset, their headsigns, trip after trip.
    pub(crate) fn push_all(&mut self, tables: &Tables) -> Result<(), OutOfMemory>
        requires passes { Passes tables.now }
        requires stop_times { AreStopTimes tables.now self.old.stop_times.left }
        requires empty { IsEmptyFor (length (content_of tables.now).trips) self.old }
        ensures gathered { OnOk result
            (AreGathered tables.now self.old.stop_times.left self.new) }
        ensures all_given { OnOk result (self.new.stop_times.left ≡ []) }
    {
        let column = tables.column(File::StopTimes, "stop_headsign");
        for at in 0..self.stop_times.len() {
            let stop_time = self.stop_times.peek();
            let number = self.headsigns.number(text(tables, &stop_time, column))?;
            begin(&mut self.starts, stop_time.trip as usize + 1, at)?;
            self.stop_times.give(number);
        }
        self.stop_times.drop_notes();
        Ok(())
    }
}

// Has so many starts, of which those that come to it are this one.
// Mostly there are as many, and no call is needed.
#[inline(always)]
pub(crate) fn begin(starts: &mut Vec<usize>, count: usize, start: usize) -> Result<(), OutOfMemory>
    ensures { OnOk result (starts.new.items
        ≡ take count starts.old.items ++ replicate (count - length starts.old.items) start) }
{
    if starts.len() != count {
        starts.resize(count, start)?;
    }
    Ok(())
}

// The headsign of a stop time, which stands under this column.
// Where it has none, its row is not looked up.
#[inline(always)]
fn text<'t>(tables: &'t Tables, stop_time: &StopTime, column: Option<usize>) -> &'t str
    requires { stop_time.now.has_headsign ≡ not (is_empty (field_under (record_at
        (records_in tables.now file.StopTimes) stop_time.now.row) column)) }
    ensures { result.now ≡ field_under (record_at
        (records_in tables.now file.StopTimes) stop_time.now.row) column }
{
    match column {
        Some(column) if stop_time.has_headsign => {
            tables.field(File::StopTimes, stop_time.row as usize, column)
        }
        _ => "",
    }
}
