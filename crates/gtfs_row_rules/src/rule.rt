ghost use Rattle.std.specs.Prelude.{◌≡◌, ◌||◌, ◌++◌, ⊤, ℕ, Bool, List, [], ◌∷◌, false, OnOk};
ghost use Rattle.gtfs_schema.specs.steps.FoundProblems.{Reports};
ghost use Rattle.gtfs_schema.specs.steps.KeptColumns.{at_column};
ghost use Rattle.gtfs_schema.proofs.RuleFacts.{silent_column};
ghost use Rattle.gtfs_row_rules.specs.RowRules.{HoldsWhere, IsNext, Picks, ReportsOfRow};
ghost use Rattle.gtfs_row_rules.specs.RowRules.{IsSilent, both_silent};
ghost use Rattle.gtfs_table.specs.Rows.{records_in};
ghost use Rattle.gtfs_table.specs.Tables.{Dataset, record_at};
ghost use Rattle.gtfs_table.specs.declared.file.File.{File};

use gtfs_field::OutOfMemory;
use gtfs_schema::{Code, FileName, Found, Problem};
use gtfs_table::{File, Record, Tables};

// A rule about the rows of one file, by the number of a row and its record.
pub(crate) trait Rule {
    ghost breaks: { Self → ℕ → List (List ℕ) → Bool };

    // Whether a row breaks the rule, which stays the same.
    // A rule may remember where it looked last.
    fn breaks(&mut self, row: usize, record: &Record<'_>) -> bool
        ensures answer { result ≡ breaks self.old row «record».now }
        ensures same { breaks self.new ≡ breaks self.old };
}

// Rules that one pass asks of each row of a file: one at its site, or a pair, whose second may be a
// pair again.
pub(crate) trait RowRules {
    // The rules are those of the dataset, at the columns of the file where they are reported, and
    // have judged these rows.
    ghost holds: { Self → Dataset → File → List ℕ → Type 0 };

    // The problems that the rules look at.
    ghost picks: { Self → File → Picks };

    // Reports what is wrong with the next row.
    fn report(
        &mut self,
        file: File,
        row: usize,
        record: &Record<'_>,
        found: &mut Found<'_>,
    ) -> Result<(), OutOfMemory>
        ensures reported { OnOk result ((d : Dataset) (before : List ℕ)
            → holds self.old d file before → IsNext d file before row «record».now
            → ReportsOfRow d (picks self.old file) row found.old found.new) }
        ensures holding { OnOk result ((d : Dataset) (before : List ℕ)
            → holds self.old d file before → IsNext d file before row «record».now
            → holds self.new d file (before ++ row ∷ [])) }
        ensures same { picks self.new ≡ picks self.old };

    // None of them stands at a record that is no row, so that rows are all that a pass walks.
    ghost silent: { (s : Self) (d : Dataset) (x : File) (before : List ℕ) → holds s d x before
        → IsSilent d x (picks s x) };
}

// A rule, and its site: the code and the column under which rows that break it are reported.
#[derive(Drop)]
pub(crate) struct At<R>(pub(crate) Code, pub(crate) &'static str, pub(crate) R);

impl<R: Rule> RowRules for At<R> {
    ghost holds = { λ s d x before. HoldsWhere s.0 d x s.1.now
        (λ n. R.breaks s.2 n (record_at (records_in d x) n)) };

    ghost picks = { λ s x. at_column s.0 x s.1.now };

    ghost silent = { λ s d x before. silent_column d s.0 x s.1.now
        (λ n. R.breaks s.2 n (record_at (records_in d x) n)) };

    #[inline(always)]
    fn report(
        &mut self,
        file: File,
        row: usize,
        record: &Record<'_>,
        found: &mut Found<'_>,
    ) -> Result<(), OutOfMemory> {
        let problem = Problem {
            file: FileName::Kept(file),
            row,
            code: self.0,
            column: self.1,
        };
        found.report_if(problem, self.2.breaks(row, record))
    }
}

impl<A: RowRules, B: RowRules> RowRules for (A, B) {
    ghost holds = { λ s d x before. A.holds s.0 d x before × B.holds s.1 d x before };

    ghost picks = { λ s x p. A.picks s.0 x p || B.picks s.1 x p };

    ghost silent = { λ s d x before h. both_silent d x (A.picks s.0 x) (B.picks s.1 x)
        (A.silent s.0 d x before h.0) (B.silent s.1 d x before h.1) };

    #[inline(always)]
    fn report(
        &mut self,
        file: File,
        row: usize,
        record: &Record<'_>,
        found: &mut Found<'_>,
    ) -> Result<(), OutOfMemory> {
        self.0.report(file, row, record, found)?;
        self.1.report(file, row, record, found)
    }
}

// The end of a list of pairs.
impl RowRules for () {
    ghost holds = { λ s d x before. ⊤ };

    ghost picks = { λ s x p. false };

    ghost silent = { λ s d x before h p picked. cc picked };

    fn report(
        &mut self,
        file: File,
        row: usize,
        record: &Record<'_>,
        found: &mut Found<'_>,
    ) -> Result<(), OutOfMemory> {
        Ok(())
    }
}

// Reports what is wrong with the rows of a file, in one pass.
pub(crate) fn judge_rows<'a, R: RowRules>(
    tables: &'a Tables,
    file: File,
    rules: &mut R,
    found: &mut Found<'a>,
) -> Result<(), OutOfMemory>
    requires { R.holds rules.old tables.now file [] }
    ensures { OnOk result (Reports tables.now (R.picks rules.old file) found.old found.new) }
{
    for (row, record) in tables.rows(file) {
        rules.report(file, row, &record, found)?;
    }
    Ok(())
}
