//! How many problems of a report have the same code, file and column.
ghost use Rattle.std.specs.Prelude.{◌≡◌, if◌then◌else◌, map, unwrap_or, None, IfOk};
ghost use Rattle.std.specs.BTreeMap.{get};
ghost use Rattle.gtfs_schema.specs.ProblemTexts.{problem_of};
ghost use Rattle.gtfs_schema.specs.declared.problem.Problem.{Problem as Lent};
ghost use Rattle.gtfs_cli.specs.CheckLines.{count_alike, is_alike};
ghost use Rattle.gtfs_cli.specs.CountsByKind.{held_for, if_any, lent_cmp};

use gtfs_field::OutOfMemory;
use gtfs_rules::Problem;
use std::alloc::Global;
use std::collections::BTreeMap;

// The number of problems of each kind whose first one was not asked for yet. The key of a kind is a
// problem of no row.
#[derive(Drop)]
pub(crate) struct KindCounts<'a> {
    counts: BTreeMap<Problem<'a>, usize>,
}

impl<'a> KindCounts<'a> {
    // The numbers of these problems.
    pub(crate) fn of(alloc: Global, problems: &[Problem<'a>]) -> Result<KindCounts<'a>, OutOfMemory>
        ensures { IfOk result (λ counts. (p : Lent) → held_for counts p
            ≡ if_any (count_alike (map problem_of problems.now) (problem_of p))) }
    {
        let mut counts = BTreeMap::new(alloc);
        for problem in problems {
            let kind = kind_of(problem);
            let before = count_of(&counts, &kind);
            counts.insert(kind, before + 1)?;
        }
        Ok(KindCounts { counts })
    }

    // The number of a problem's kind, which is held no longer.
    pub(crate) fn take(&mut self, problem: &Problem<'a>) -> Option<usize>
        ensures taken { result ≡ held_for self.old problem.now }
        ensures left { (q : Lent) → held_for self.new q
            ≡ (if is_alike (problem_of problem.now) (problem_of q) then None
            else held_for self.old q) }
    {
        self.counts.remove(&kind_of(problem))
    }
}

// The number of a kind, which is 0 where none is held.
fn count_of<'a>(counts: &BTreeMap<Problem<'a>, usize>, kind: &Problem<'a>) -> usize
    ensures { result ≡ unwrap_or (get lent_cmp counts.now kind.now) 0 }
{
    match counts.get(kind) {
        Some(count) => *count,
        None => 0,
    }
}

// The key of a problem's kind.
fn kind_of<'a>(problem: &Problem<'a>) -> Problem<'a>
    ensures { result ≡ record problem.now { row = 0 } }
{
    Problem { row: 0, ..*problem }
}
