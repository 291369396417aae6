ghost use Rattle.std.specs.Prelude.{◌≡◌, ◌&&◌, [], map, IfOk, OnOk};
ghost use Rattle.std.specs.List.Sorted.{IsStrictlySortedBy};
ghost use Rattle.gtfs_schema.specs.steps.FoundProblems.{is_same, Adds, SameProblems};
ghost use Rattle.gtfs_schema.specs.Problems.{problem_cmp};
ghost use Rattle.gtfs_schema.specs.ProblemTexts.{problem_of};

use crate::problem::Problem;
use gtfs_field::OutOfMemory;
use std::alloc::Global;
use std::marker::Model;

/// The problems that were found so far, in any order, some perhaps twice.
#[derive(Drop)]
pub struct Found<'a> {
    problems: Vec<Problem<'a>>,
}

impl<'a> Model for Found<'a> {
    ghost use Rattle.std.specs.Prelude.{List, map};
    ghost use Rattle.gtfs_schema.specs.Problems.{Problem};
    ghost use Rattle.gtfs_schema.specs.ProblemTexts.{problem_of};

    ghost Value = { List Problem };

    ghost view = { λ f. map problem_of f.problems.items };
}

impl<'a> Found<'a> {
    /// No problems. It takes no memory.
    pub fn new(alloc: Global) -> Found<'a>
        ensures { result ≡ [] }
    {
        Found {
            problems: Vec::new(alloc),
        }
    }

    /// Adds a problem if it holds.
    ///
    /// # Errors
    /// `OutOfMemory` where the list cannot grow.
    pub fn report_if(&mut self, problem: Problem<'a>, holds: bool) -> Result<(), OutOfMemory>
        ensures { OnOk result
            (Adds (λ p. is_same (problem_of problem.entry) p && holds) self.old self.new) }
    {
        if holds {
            self.problems.push(problem)?;
        }
        Ok(())
    }

    /// Each problem once, in order.
    pub fn into_sorted(self) -> Vec<Problem<'a>>
        ensures ascending { IsStrictlySortedBy problem_cmp (map problem_of result.items) }
        ensures members { SameProblems self.entry (map problem_of result.items) }
    {
        let Found { mut problems } = self;
        problems.sort_unstable();
        problems.dedup();
        problems
    }
}
