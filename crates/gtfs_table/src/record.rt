ghost use Rattle.std.specs.Prelude.{◌≡◌, ◌==◌, ◌≤◌, ◌-◌, true, not, [], length, take, drop, slice_index_or};
ghost use Rattle.std.specs.List.{list_any};
ghost use Rattle.gtfs_table.specs.Blanks.{cut};
ghost use Rattle.gtfs_table.specs.Rows.{is_empty};
ghost use Rattle.gtfs_table.specs.StoredRecords.{IsRun, fields_in};
ghost use Rattle.gtfs_table.specs.Tables.{field_cut, field_under};

use crate::blanks;
use crate::texts::Texts;
use std::marker::Model;

/// One record of a table, found once for the many fields that a caller reads of it.
///
/// Its fields are numbered from 0,
/// and a field that was read stays valid after the record is let go.
#[derive(Drop)]
pub struct Record<'a> {
    // The run of a short record, and where in it the first field begins and each ends. Or bytes,
    // and where in these the first fields of a long record begin and the last one of those ends:
    // the fields of one block.
    bytes: &'a [u8],
    marks: &'a [u8],
    distances: &'a [u16],
    // A long record is these fields from the number `start` to `end`.
    fields: &'a Texts,
    start: usize,
    end: usize,
}

impl<'a> Model for Record<'a> {
    ghost use Rattle.std.specs.Prelude.{List, ℕ};

    ghost Value = { List (List ℕ) };

    ghost use Rattle.gtfs_table.specs.StoredRecords.{record_in, IsRecordWithin};

    ghost view = { record_in };

    ghost invariant = { IsRecordWithin };
}

impl<'a> Record<'a> {
    // The record of this run, and of none of `fields`.
    #[inline(always)]
    pub(crate) fn of_short(run: &'a [u8], fields: &'a Texts) -> Record<'a>
        requires { IsRun run.now }
        ensures { result ≡ fields_in run.now }
    {
        Record {
            bytes: run,
            marks: &run[..run[0] as usize],
            distances: &[],
            fields,
            start: 0,
            end: 0,
        }
    }

    // The record of these fields from the number `start` to `end`.
    #[inline(always)]
    pub(crate) fn of_long(fields: &'a Texts, start: usize, end: usize) -> Record<'a>
        requires start { start ≤ end }
        requires end { end ≤ length fields.now }
        ensures { result ≡ take (end - start) (drop start fields.now) }
    {
        let (bytes, distances) = fields.near(start, end);
        Record {
            bytes,
            marks: &[],
            distances,
            fields,
            start,
            end,
        }
    }

    /// How many fields it has.
    pub fn len(&self) -> usize
        ensures { result ≡ length self.now }
    {
        self.marks.len().saturating_sub(1) + (self.end - self.start)
    }

    /// Whether it has no field, as where there is no such row.
    pub fn is_empty(&self) -> bool
        ensures { result ≡ (length self.now == 0) }
    {
        self.len() == 0
    }

    /// Whether it has a field that is not blank, as a row has.
    #[inline(always)]
    pub fn has_value(&self) -> bool
        ensures { result ≡ list_any (λ field. not (is_empty (cut field))) self.now }
    {
        self.begins_visible() || self.has_value_anywhere()
    }

    // Whether its first byte tells that it has a value, as that of most rows.
    #[inline(always)]
    fn begins_visible(&self) -> bool
        ensures { result ≡ true → list_any (λ field. not (is_empty (cut field))) self.now ≡ true }
    {
        blanks::begins_visible(self.raw(0))
    }

    // The same where a search for a value is needed:
    // no call, which would want the record in memory.
    #[inline(always)]
    fn has_value_anywhere(&self) -> bool
        ensures { result ≡ list_any (λ field. not (is_empty (cut field))) self.now }
    {
        for n in 0..self.len() {
            if !self.field(n).is_empty() {
                return true;
            }
        }
        false
    }

    /// A field, cut of its blanks: the empty text where there is no such field.
    #[inline(always)]
    pub fn field(&self, n: usize) -> &'a str
        ensures { result.now ≡ field_cut self.now n }
    {
        blanks::cut(self.raw(n))
    }

    /// The value of a column by its index, as [`Tables::column`](crate::Tables::column)
    /// gives it: the field there, cut of its blanks, and the empty text where the record has
    /// none or the file no such column.
    #[inline(always)]
    pub fn value(&self, column: Option<usize>) -> &'a str
        ensures { result.now ≡ field_under self.now column }
    {
        match column {
            Some(n) => self.field(n),
            None => "",
        }
    }

    // A field as it stands in the table: the empty text where there is no such field.
    #[inline(always)]
    pub(crate) fn raw(&self, n: usize) -> &'a str
        ensures { result.now ≡ slice_index_or self.now n [] }
    {
        let short = self.marks.len().saturating_sub(1);
        if n < short {
            let start = self.marks[n] as usize;
            let end = self.marks[n + 1] as usize;
            return unsafe { str::from_utf8_unchecked(&self.bytes[start..end]) };
        }
        let i = n - short;
        if i < self.distances.len().saturating_sub(1) {
            self.fields.are_utf8();
            let start = self.distances[i] as usize;
            let end = self.distances[i + 1] as usize;
            unsafe { str::from_utf8_unchecked(&self.bytes[start..end]) }
        } else if i < self.end - self.start {
            self.fields.get_far(self.start + i)
        } else {
            ""
        }
    }
}
