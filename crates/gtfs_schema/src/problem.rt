ghost use Rattle.std.specs.Cmp.{on_equiv, on_per, on_po, on_total, partial_equiv_from_equiv, po};
ghost use Rattle.std.specs.Ordering.{eq_by_cmp, on};
ghost use Rattle.std.specs.Prelude.{Some, refl};
ghost use Rattle.gtfs_schema.specs.steps.ProblemOrder.{problem_equal, problem_total};
ghost use Rattle.gtfs_schema.specs.Problems.{problem_cmp};
ghost use Rattle.gtfs_schema.specs.ProblemTexts.{problem_of};

use crate::code::Code;
use crate::file_name::FileName;
use std::cmp::Ordering;

/// A problem of a dataset: what is wrong, and where.
///
/// Problems are ordered by file, row, code, and column by its bytes.
#[derive(Clone, Copy, Debug)]
pub struct Problem<'a> {
    /// The file.
    pub file: FileName<'a>,
    /// The row, from 1 for the header; 0 where the problem is that of the file as a whole.
    pub row: usize,
    /// What is wrong.
    pub code: Code,
    /// The name of the column, and the empty text where the problem is that of no column.
    pub column: &'a str,
}

impl PartialEq for Problem<'_> {
    ghost eq = { on problem_of (eq_by_cmp problem_cmp) };

    ghost laws = { on_per problem_of (partial_equiv_from_equiv problem_equal) };

    fn eq(&self, other: &Self) -> bool {
        self.cmp(other).is_eq()
    }
}

impl Eq for Problem<'_> {
    ghost laws = { on_equiv problem_of problem_equal };
}

impl PartialOrd for Problem<'_> {
    ghost partial_cmp = { λ a b. Some (problem_cmp (problem_of a) (problem_of b)) };

    ghost laws = { on_po problem_of (po problem_total (λ a b. refl)) };

    fn partial_cmp(&self, other: &Self) -> Option<Ordering> {
        Some(self.cmp(other))
    }
}

impl Ord for Problem<'_> {
    ghost cmp = { λ a b. problem_cmp (problem_of a) (problem_of b) };

    ghost total = { on_total problem_of problem_total };

    ghost matches_partial_cmp = { λ a b. refl };

    ghost matches_eq = { λ a b. refl };

    fn cmp(&self, other: &Self) -> Ordering {
        self.file
            .cmp(&other.file)
            .then(self.row.cmp(&other.row))
            .then(self.code.rank().cmp(&other.code.rank()))
            .then(self.column.cmp(other.column))
    }
}
