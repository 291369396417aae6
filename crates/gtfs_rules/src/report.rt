ghost use Rattle.std.specs.Prelude.{◌≡◌, map, IfOk, IfErr};
ghost use Rattle.std.specs.List.{list_any};
ghost use Rattle.gtfs_schema.specs.Codes.{is_error};
ghost use Rattle.gtfs_schema.specs.steps.FeedIds.{AreIdsOf};
ghost use Rattle.gtfs_schema.specs.steps.FoundProblems.{ListsAll};
ghost use Rattle.gtfs_schema.specs.Problems.{IsOnlyReport, IsReport, Passes};
ghost use Rattle.gtfs_schema.specs.ProblemTexts.{problem_of};
ghost use Rattle.gtfs_trip_rules.specs.KeptOrder.{AreKeptOf};

use crate::passed::Passed;
use gtfs_schema::{FeedIds, Found, Problem};
use gtfs_stop_times::KeptStopTimes;
use gtfs_table::Tables;
use std::marker::Model;

/// The problems of a dataset, each once, in order; it lends the tables that were checked.
#[derive(Drop)]
pub struct Report<'a> {
    tables: &'a Tables,
    ids: FeedIds<'a>,
    problems: Vec<Problem<'a>>,
    // Those that name a trip and have a sequence, in their order.
    stop_times: KeptStopTimes,
}

impl<'a> Model for Report<'a> {
    ghost use Rattle.std.specs.Prelude.{map};
    ghost use Rattle.gtfs_schema.specs.steps.FoundProblems.{Checked};
    ghost use Rattle.gtfs_schema.specs.ProblemTexts.{problem_of};
    ghost use Rattle.gtfs_rules.specs.steps.CheckedTables.{IsChecked};

    ghost Value = { Checked };

    ghost view = { λ r. record { dataset = r.tables.now; problems = map problem_of r.problems.items } };

    ghost invariant = { λ r.
        IsChecked r.tables.now r.ids (map problem_of r.problems.items) r.stop_times };
}

impl<'a> Report<'a> {
    // The report of the problems that were found, which are all that the tables have, the ids by
    // which they were found, and the stop times that were read.
    pub(crate) fn new(
        tables: &'a Tables,
        ids: FeedIds<'a>,
        found: Found<'a>,
        stop_times: KeptStopTimes,
    ) -> Report<'a>
        requires ids { AreIdsOf tables.now ids }
        requires found { ListsAll tables.now found }
        requires stop_times { AreKeptOf tables.now stop_times }
        ensures { result.dataset ≡ tables.now }
    {
        Report {
            tables,
            ids,
            problems: found.into_sorted(),
            stop_times,
        }
    }

    /// The problems, strictly ascending: exactly those that the tables have.
    pub fn problems(&self) -> &[Problem<'a>]
        ensures value { map problem_of result.now ≡ self.now.problems }
        ensures report { IsReport self.now.dataset (map problem_of result.now) }
        ensures only { IsOnlyReport self.now.dataset (map problem_of result.now) }
    {
        self.problems.as_slice()
    }

    /// The tables as a feed that passes, exactly where no problem is an error;
    /// else the report again. It takes no memory.
    pub fn passed(self) -> Result<Passed<'a>, Report<'a>>
        ensures passed { IfOk result (λ passed. passed ≡ self.entry.dataset) }
        ensures passes { IfOk result (λ passed. Passes self.entry.dataset) }
        ensures refused { IfErr result (λ report. report ≡ self.entry) }
        ensures fails { IfErr result (λ report. ¬ (Passes self.entry.dataset)) }
    {
        if has_error(self.problems.as_slice()) {
            return Err(self);
        }
        let Report {
            tables,
            ids,
            problems: _,
            stop_times,
        } = self;
        Ok(Passed::new(tables, ids, stop_times))
    }
}

// Whether one of the problems is an error.
fn has_error(problems: &[Problem<'_>]) -> bool
    ensures { result ≡ list_any (λ p. is_error p.code) problems.now }
{
    problems.iter().any(|problem| problem.code.is_error())
}
