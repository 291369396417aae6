ghost use Rattle.std.specs.Prelude.{◌≡◌};
ghost use Rattle.gtfs_schema.specs.Problems.{Passes};
ghost use Rattle.gtfs_schema.specs.steps.FeedIds.{AreIdsOf};
ghost use Rattle.gtfs_rules.specs.StopTimes.{AreStopTimes};

use gtfs_schema::FeedIds;
use gtfs_stop_times::KeptStopTimes;
use gtfs_table::Tables;
use std::marker::Model;

/// Tables that were checked and have no error. Nothing but
/// [`Report::passed`](crate::Report::passed) makes one.
#[derive(Drop)]
pub struct Passed<'a> {
    tables: &'a Tables,
    ids: FeedIds<'a>,
    stop_times: KeptStopTimes,
}

impl<'a> Model for Passed<'a> {
    ghost use Rattle.gtfs_table.specs.Tables.{Dataset};
    ghost use Rattle.gtfs_rules.specs.steps.CheckedTables.{HasPassed};

    ghost Value = { Dataset };

    ghost view = { λ p. p.tables.now };

    ghost invariant = { λ p. HasPassed p.tables.now p.ids p.stop_times };
}

impl<'a> Passed<'a> {
    // Tables that have no error, their ids and their stop times.
    pub(crate) fn new(tables: &'a Tables, ids: FeedIds<'a>, stop_times: KeptStopTimes) -> Passed<'a>
        requires passes { Passes tables.now }
        requires ids { AreIdsOf tables.now ids }
        requires stop_times { AreStopTimes tables.now stop_times }
        ensures { result ≡ tables.now }
    {
        Passed {
            tables,
            ids,
            stop_times,
        }
    }

    /// The tables that were checked.
    pub fn tables(&self) -> &'a Tables
        ensures value { result.now ≡ self.now }
        ensures passes { Passes result.now }
    {
        self.tables
    }

    /// The ids of the dataset, as the check found them: each has a number, from 0 in the order of
    /// the ids' bytes, and its first row (GTFS Schedule Reference, fields of type "ID").
    pub fn ids(&self) -> &FeedIds<'a>
        ensures { AreIdsOf self.now result.now }
    {
        &self.ids
    }

    /// The stop times of the dataset, one for each row of `stop_times.txt`: by the numbers of their
    /// trips, and in a trip by their sequence. Each was read once, when the tables were checked,
    /// and says what its row says (GTFS Schedule Reference, `stop_times.txt`). Trips and stops have
    /// the numbers of their ids: from 0, in the order of the ids' bytes.
    pub fn stop_times(&self) -> &KeptStopTimes
        ensures { AreStopTimes self.now result.now }
    {
        &self.stop_times
    }

    /// The ids and the stop times of the dataset, as [`Passed::ids`] and [`Passed::stop_times`] lend
    /// them.
    pub fn into_parts(self) -> (FeedIds<'a>, KeptStopTimes)
        ensures ids { AreIdsOf self.entry result.0 }
        ensures stop_times { AreStopTimes self.entry result.1 }
    {
        let Passed {
            tables: _,
            ids,
            stop_times,
        } = self;
        (ids, stop_times)
    }
}
