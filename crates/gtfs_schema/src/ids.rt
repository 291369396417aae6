ghost use Rattle.std.specs.Prelude.{◌≡◌, ◌<◌, ◌^◌, [], length, option_map, slice_index_or, IfOk, IfSome, Some};
ghost use Rattle.std.specs.List.{All};
ghost use Rattle.gtfs_schema.specs.References.{id_column};
ghost use Rattle.gtfs_schema.specs.steps.Ids.{are_clear, first_row_with, first_rows, ids_of, number_with, rows_are_clear, rows_by_number, Answers, FirstRows, IsIdIndex, ListsFirstRows};

use crate::cell::holds_control;
use crate::finder::FoundId;
use crate::id_row::IdRow;
use crate::slots::{Slot, bounds, fill_slot, free_slots, tag_of};
use gtfs_field::OutOfMemory;
use gtfs_table::{File, Tables};
use std::alloc::Global;
use std::marker::Model;

/// The first row of each id of one file, as a [`Finder`](crate::Finder) looks it up. Ids stand in
/// the first column of the file's key (GTFS Schedule Reference, the "Primary key" of each file).
#[derive(Drop)]
pub struct Ids<'a> {
    rows: Vec<IdRow<'a>>,
    // The numbers of all ids, by what is mixed of them.
    slots: Vec<Slot>,
    // Whether no id holds a control character.
    are_clear: bool,
}

impl<'a> Model for Ids<'a> {
    ghost use Rattle.std.specs.Coded.{coded_list, coded_ℕ};
    ghost use Rattle.std.specs.FinMap as table;
    ghost use Rattle.gtfs_schema.specs.steps.Ids.{listed_first_rows, FirstRows, IsFilledIndex};

    ghost Value = { FirstRows };

    ghost coded = { table.code (coded_list coded_ℕ) coded_ℕ };

    ghost view = { λ i. listed_first_rows i.rows.items };

    ghost invariant = { λ i.
        IsFilledIndex (listed_first_rows i.rows.items) i.rows.items i.slots.items i.are_clear };
}

impl<'a> Ids<'a> {
    /// The ids of this file, whose texts they borrow from the tables.
    ///
    /// # Errors
    /// `OutOfMemory` where the list of rows cannot grow,
    /// or there is no room to sort it or to find by.
    pub fn new(alloc: Global, tables: &'a Tables, file: File) -> Result<Ids<'a>, OutOfMemory>
        ensures { IfOk result (λ ids. ids ≡ first_rows tables.now file (id_column file)) }
    {
        let mut rows = id_rows(alloc, tables, file, first_key_column(file))?;
        rows.sort()?;
        rows.dedup();
        let are_clear = are_clear(&rows);
        let slots = slots_for(alloc, &rows)?;
        Ok(Ids {
            rows,
            slots,
            are_clear,
        })
    }

    /// How many ids there are. Their numbers are those below.
    pub fn len(&self) -> usize
        ensures value { result ≡ length (ids_of self.now) }
        ensures bound { result < 2 ^ 63 }
    {
        self.rows.len()
    }

    /// Whether no id holds a control character, so that a text that is an id holds none either.
    #[inline(always)]
    pub fn are_clear(&self) -> bool
        ensures { result ≡ are_clear self.now }
    {
        self.are_clear
    }

    /// The first row of the id that has this number.
    pub fn row(&self, number: usize) -> usize
        requires { number < length (ids_of self.now) }
        ensures { result ≡ slice_index_or (rows_by_number self.now) number 0 }
    {
        self.rows[number].row
    }

    // The number of this id and its first row.
    pub(crate) fn find(&self, id: &str) -> Option<FoundId>
        ensures row { option_map (λ found. found.row) result ≡ first_row_with self.now id.now }
        ensures number { option_map (λ found. found.number) result ≡ number_with self.now id.now }
    {
        match self.rows.binary_search_by(|row| row.id.cmp(id)) {
            Ok(number) => Some(FoundId {
                number,
                row: self.rows[number].row,
            }),
            Err(_) => None,
        }
    }

    // The empty id, which comes before all others: it is the first or none.
    pub(crate) fn find_empty(&self) -> Option<FoundId>
        ensures row { option_map (λ found. found.row) result ≡ first_row_with self.now [] }
        ensures number { option_map (λ found. found.number) result ≡ number_with self.now [] }
    {
        let first = self.rows.first()?;
        if !first.id.is_empty() {
            return None;
        }
        Some(FoundId {
            number: 0,
            row: first.row,
        })
    }

    // This id, where it stands in its slots.
    #[inline(always)]
    pub(crate) fn guess(&self, id: &str) -> Option<FoundId>
        ensures row { IfSome result (λ found. Some found.row ≡ first_row_with self.now id.now) }
        ensures number { IfSome result
            (λ found. Some found.number ≡ number_with self.now id.now) }
    {
        let tag = tag_of(id.as_bytes());
        let (first, end) = bounds(&self.slots, tag);
        for index in first..end {
            if let Some(found) = self.tried(index, tag, id) {
                return Some(found);
            }
        }
        None
    }

    // This id, where it is that of the slot at this index.
    #[inline(always)]
    fn tried(&self, index: usize, tag: u32, id: &str) -> Option<FoundId>
        ensures row { IfSome result (λ found. Some found.row ≡ first_row_with self.now id.now) }
        ensures number { IfSome result
            (λ found. Some found.number ≡ number_with self.now id.now) }
    {
        let slot = self.slots.get(index)?;
        if !slot.is_tagged(tag) {
            return None;
        }
        if !slot.holds_id() {
            return self.at(slot.number(), id);
        }
        slot.found(id)
    }

    // This id, where it has this number.
    #[inline(always)]
    pub(crate) fn at(&self, number: usize, id: &str) -> Option<FoundId>
        ensures row { IfSome result (λ found. Some found.row ≡ first_row_with self.now id.now) }
        ensures number { IfSome result
            (λ found. Some found.number ≡ number_with self.now id.now) }
    {
        if number >= self.rows.len() {
            return None;
        }
        let found = &self.rows[number];
        if !found.has(id) {
            return None;
        }
        Some(FoundId {
            number,
            row: found.row,
        })
    }
}

// The slots of the ids of these rows.
fn slots_for(alloc: Global, rows: &[IdRow<'_>]) -> Result<Vec<Slot>, OutOfMemory>
    ensures { IfOk result
        (λ slots. (ids : FirstRows) → IsIdIndex ids rows.now → All (Answers ids) slots.items) }
{
    let mut slots = free_slots(alloc, rows.len())?;
    for number in 0..rows.len() {
        fill_slot(&mut slots, &rows[number], number);
    }
    Ok(slots)
}

// Whether no id holds a control character.
fn are_clear(rows: &[IdRow<'_>]) -> bool
    ensures { result ≡ rows_are_clear rows.now }
{
    rows.iter().all(|row| !holds_control(row.bytes()))
}

// The rows of a file with their ids, in the order of the file.
fn id_rows<'a>(
    alloc: Global,
    tables: &'a Tables,
    file: File,
    column: &str,
) -> Result<Vec<IdRow<'a>>, OutOfMemory>
    ensures { IfOk result (λ rows.
        ListsFirstRows (first_rows tables.now file column.now) rows.items) }
{
    let index = tables.column(file, column);
    // Room that is asked for at once may stand on large pages, where a search by chance costs less.
    let mut rows = Vec::with_capacity(alloc, tables.records(file))?;
    for (row, record) in tables.rows(file) {
        let id = record.value(index);
        rows.push(IdRow::new(id, row))?;
    }
    Ok(rows)
}

// The first column of a file's key.
fn first_key_column(file: File) -> &'static str
    ensures { result.now ≡ id_column file }
{
    match file {
        File::Agency => "agency_id",
        File::Stops => "stop_id",
        File::Routes => "route_id",
        File::Trips | File::StopTimes | File::Frequencies => "trip_id",
        File::Calendar | File::CalendarDates => "service_id",
        File::Transfers => "from_stop_id",
    }
}
