ghost use Rattle.std.proofs.Common.{◌≡◌};
ghost use Rattle.std.specs.Cmp.{on_equiv, on_per, on_po, on_total, partial_equiv_from_equiv, po};
ghost use Rattle.std.specs.Ordering.{eq_by_cmp, on};
ghost use Rattle.std.specs.Prelude.{Some, refl};
ghost use Rattle.gtfs_schema.specs.steps.ProblemOrder.{name_equal, name_total};
ghost use Rattle.gtfs_schema.specs.Problems.{name_bytes, name_cmp, name_rank};
ghost use Rattle.gtfs_schema.specs.RowConditions.{file_rank};
ghost use Rattle.gtfs_schema.specs.ProblemTexts.{name_of};

use gtfs_table::File;
use std::cmp::Ordering;

/// The file of a problem: one of the nine that are kept, or another name in the folder.
///
/// The nine come first, in the order of [`File::ALL`], and then the other names by their bytes.
#[derive(Clone, Copy, Debug)]
pub enum FileName<'a> {
    /// One of the nine files.
    Kept(File),
    /// Another name, which the tables lend.
    Other(&'a str),
}

impl<'a> FileName<'a> {
    /// The name, as `stop_times.txt`.
    pub fn as_str(self) -> &'a str
        ensures { result.now ≡ name_bytes (name_of self.entry) }
    {
        match self {
            FileName::Kept(file) => file.name(),
            FileName::Other(name) => name,
        }
    }

    // The rank among the nine files, and 9 for every other name.
    fn rank(self) -> u8
        ensures { result ≡ name_rank (name_of self.entry) }
    {
        match self {
            FileName::Kept(file) => rank_of(file),
            FileName::Other(_) => 9,
        }
    }
}

// The file's rank among the nine.
fn rank_of(file: File) -> u8
    ensures { result ≡ file_rank file }
{
    file as u8
}

impl PartialEq for FileName<'_> {
    ghost eq = { on name_of (eq_by_cmp name_cmp) };

    ghost laws = { on_per name_of (partial_equiv_from_equiv name_equal) };

    fn eq(&self, other: &Self) -> bool {
        self.cmp(other).is_eq()
    }
}

impl Eq for FileName<'_> {
    ghost laws = { on_equiv name_of name_equal };
}

impl PartialOrd for FileName<'_> {
    ghost partial_cmp = { λ a b. Some (name_cmp (name_of a) (name_of b)) };

    ghost laws = { on_po name_of (po name_total (λ a b. refl)) };

    fn partial_cmp(&self, other: &Self) -> Option<Ordering> {
        Some(self.cmp(other))
    }
}

impl Ord for FileName<'_> {
    ghost cmp = { λ a b. name_cmp (name_of a) (name_of b) };

    ghost total = { on_total name_of name_total };

    ghost matches_partial_cmp = { λ a b. refl };

    ghost matches_eq = { λ a b. refl };

    fn cmp(&self, other: &Self) -> Ordering {
        self.rank()
            .cmp(&other.rank())
            .then(self.as_str().cmp(other.as_str()))
    }
}
