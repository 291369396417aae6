ghost use Rattle.std.specs.Prelude.{All, ◌≡◌, ◌<◌, ◌^◌, ◌++◌, ◌∷◌, [], length, take, OnOk, OnErr, slice_index_or};
ghost use Rattle.csv.specs.Records.{AllText, IsRecord, fields_of};
ghost use Rattle.gtfs_table.specs.FieldOffsets.{add_to_last};

use crate::offsets::Offsets;
use crate::record::Record;
use crate::texts::Texts;
use csv::ByteRecord;
use gtfs_field::OutOfMemory;
use std::alloc::Global;
use std::marker::Model;

// Few files have shorter fields, the commas counted.
const BYTES_OF_A_FIELD: usize = 4;

// Records of any length. Their fields lie in one buffer, and each is found by an offset of its own.
#[derive(Drop)]
pub(crate) struct LongRecords {
    fields: Texts,
    starts: Offsets,
}

impl Model for LongRecords {
    ghost use Rattle.std.specs.Prelude.{List, ℕ};

    ghost Value = { List (List (List ℕ)) };

    ghost use Rattle.gtfs_table.specs.StoredRecords.{records_stored, IsRecordStore};

    ghost view = { records_stored };

    ghost invariant = { IsRecordStore };
}

impl LongRecords {
    pub(crate) fn new(alloc: Global) -> LongRecords
        ensures { result ≡ [] }
    {
        LongRecords {
            fields: Texts::new(alloc),
            starts: Offsets::new(alloc),
        }
    }

    // Makes room for about as many as a file of this size has.
    pub(crate) fn reserve(&mut self, size: usize) -> Result<(), OutOfMemory>
        ensures { self.new ≡ self.old }
    {
        self.fields.reserve(size / BYTES_OF_A_FIELD, size)
    }

    pub(crate) fn len(&self) -> usize
        ensures count { result ≡ length self.now }
        ensures small { result < 2 ^ 63 }
    {
        self.starts.len()
    }

    // The record with this number, from 0.
    #[inline(always)]
    pub(crate) fn record(&self, i: usize) -> Record<'_>
        requires { i < length self.now }
        ensures { result ≡ slice_index_or self.now i [] }
    {
        let (start, end) = self.starts.span_far(i, self.fields.len());
        Record::of_long(&self.fields, start, end)
    }

    // A record with no field.
    #[inline(always)]
    pub(crate) fn no_record(&self) -> Record<'_>
        ensures { result ≡ [] }
    {
        Record::of_long(&self.fields, 0, 0)
    }

    // The fields of all records.
    #[inline(always)]
    pub(crate) fn fields(&self) -> &Texts {
        &self.fields
    }

    // Each record has a field, and each field is UTF-8: facts for callers.
    pub(crate) fn are_filled_with_text(&self)
        ensures filled { All (λ fields. 0 < length fields) self.now }
        ensures text { All AllText self.now }
    {
        self.fields.are_utf8();
    }

    // Adds a record of one field. A refusal leaves the records as they were.
    pub(crate) fn push_record(&mut self, field: &str) -> Result<(), OutOfMemory>
        ensures ok { OnOk result (self.new ≡ self.old ++ (field.now ∷ []) ∷ []) }
        ensures err { OnErr result (self.new ≡ self.old) }
    {
        let count = self.starts.len();
        self.starts.push(self.fields.len())?;
        let pushed = self.fields.push(field);
        if pushed.is_err() {
            self.starts.truncate(count);
        }
        pushed
    }

    // Adds a record that `csv` read. A refusal leaves the records as they were.
    pub(crate) fn push_row(&mut self, row: &ByteRecord) -> Result<(), OutOfMemory>
        requires text { AllText (fields_of row.now) }
        requires filled { 0 < length (fields_of row.now) }
        requires whole { IsRecord row.now }
        ensures ok { OnOk result (self.new ≡ self.old ++ fields_of row.now ∷ []) }
        ensures err { OnErr result (self.new ≡ self.old) }
    {
        let count = self.starts.len();
        self.starts.push(self.fields.len())?;
        let pushed = self.fields.append(row);
        if pushed.is_err() {
            self.starts.truncate(count);
        }
        pushed
    }

    // Keeps the first records, as many as `count`.
    pub(crate) fn truncate(&mut self, count: usize)
        ensures { self.new ≡ take count self.old }
    {
        if count < self.starts.len() {
            let (start, _) = self.starts.span(count, self.fields.len());
            self.starts.truncate(count);
            self.fields.truncate(start);
        }
    }

    // Adds a field to the last record. A refusal leaves the records as they were.
    pub(crate) fn push_field(&mut self, field: &str) -> Result<(), OutOfMemory>
        requires { 0 < length self.old }
        ensures ok { OnOk result (self.new ≡ add_to_last self.old field.now) }
        ensures err { OnErr result (self.new ≡ self.old) }
    {
        self.fields.push(field)
    }
}
