ghost use Rattle.std.specs.Prelude.{◌≡◌, option_map, IfSome, Some};
ghost use Rattle.gtfs_schema.specs.steps.Ids.{first_row_with, number_with};

use crate::ids::Ids;

/// What is known of an id of a column.
#[derive(Clone, Copy)]
pub struct FoundId {
    /// Its number, from 0: how many ids of the column come before it by their bytes.
    pub number: usize,
    /// The first row that has it.
    pub row: usize,
}

/// Finds ids of a column that are asked for one after the other.
///
/// Rows that stand together often name one row, and rows in turn. So before a search is made, a few
/// numbers are tried: that of the last answer as long as it is repeated, the next, and once an id
/// was not the next those that stand in the slots for it. What they hold is compared with the id,
/// so that no choice of ids can make an answer wrong, or cost more than the search.
#[derive(Drop)]
pub struct Finder<'a> {
    /// The ids that are searched.
    pub ids: &'a Ids<'a>,
    last: usize,
    // Whether the last answer was that of the one before it. Where it was not, no id is compared
    // with it: its text is far away where ids come in random order.
    is_repeated: bool,
    // Whether each id that was asked for was that of the last answer or the next.
    is_in_order: bool,
}

impl<'a> Finder<'a> {
    /// A finder that was asked for nothing yet. It takes no memory.
    pub fn new(ids: &'a Ids<'a>) -> Finder<'a>
        ensures { result.ids.now ≡ ids.now }
    {
        Finder {
            ids,
            last: 0,
            is_repeated: true,
            is_in_order: true,
        }
    }

    /// The first row with this id, and None where no row has it.
    pub fn first_row(&mut self, id: &str) -> Option<usize>
        ensures answer { result ≡ first_row_with self.old.ids.now id.now }
        ensures same { self.new.ids.now ≡ self.old.ids.now }
    {
        match self.find(id) {
            Some(found) => Some(found.row),
            None => None,
        }
    }

    /// The number of this id and its first row, and None where no row has it.
    #[inline(always)]
    pub fn find(&mut self, id: &str) -> Option<FoundId>
        ensures row { option_map (λ found. found.row) result
            ≡ first_row_with self.old.ids.now id.now }
        ensures number { option_map (λ found. found.number) result
            ≡ number_with self.old.ids.now id.now }
        ensures same { self.new.ids.now ≡ self.old.ids.now }
    {
        if self.is_repeated
            && let Some(found) = self.ids.at(self.last, id)
        {
            return Some(found);
        }
        self.find_elsewhere(id)
    }

    // The same, where it is not known to be that of the last answer.
    #[inline(never)]
    fn find_elsewhere(&mut self, id: &str) -> Option<FoundId>
        ensures row { option_map (λ found. found.row) result
            ≡ first_row_with self.old.ids.now id.now }
        ensures number { option_map (λ found. found.number) result
            ≡ number_with self.old.ids.now id.now }
        ensures same { self.new.ids.now ≡ self.old.ids.now }
    {
        // References that may be left out mostly are.
        if id.is_empty() {
            return self.ids.find_empty();
        }
        let found = match self.guess(id) {
            Some(found) => found,
            None => self.ids.find(id)?,
        };
        self.is_repeated = found.number == self.last;
        self.last = found.number;
        Some(found)
    }

    // This id, where it is the next, or where it stands in its slots.
    #[inline(always)]
    fn guess(&mut self, id: &str) -> Option<FoundId>
        ensures row { IfSome result
            (λ found. Some found.row ≡ first_row_with self.old.ids.now id.now) }
        ensures number { IfSome result
            (λ found. Some found.number ≡ number_with self.old.ids.now id.now) }
        ensures same { self.new.ids.now ≡ self.old.ids.now }
    {
        if self.is_in_order {
            if let Some(found) = self.ids.at(self.last.saturating_add(1), id) {
                return Some(found);
            }
            self.is_in_order = false;
        }
        self.ids.guess(id)
    }
}
