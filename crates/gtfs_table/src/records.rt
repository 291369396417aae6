ghost use Rattle.std.specs.Prelude.{All, ◌≡◌, ◌<◌, ◌+◌, ◌++◌, ◌∷◌, [], length, take, IfOk, OnOk, OnErr};
ghost use Rattle.csv.specs.Records.{AllText, IsRecord, fields_of};
ghost use Rattle.gtfs_table.specs.FieldOffsets.{add_to_last};
ghost use Rattle.gtfs_table.specs.Tables.{record_at};

use crate::csv_writing::copy_record;
use crate::long_records::LongRecords;
use crate::record::Record;
use crate::short_records::ShortRecords;
use csv::ByteRecord;
use gtfs_field::OutOfMemory;
use std::alloc::Global;
use std::marker::Model;

// The records of a file: short ones up to the first that is long or is not read but pushed.
#[derive(Drop)]
pub(crate) struct Records {
    short: ShortRecords,
    long: LongRecords,
    // The size of the file that room was made for.
    expected: usize,
}

impl Model for Records {
    ghost use Rattle.std.specs.Prelude.{List, ℕ, ◌++◌};

    ghost Value = { List (List (List ℕ)) };

    ghost view = { λ r. r.short ++ r.long };
}

impl Records {
    pub(crate) fn new(alloc: Global) -> Records
        ensures { result ≡ [] }
    {
        Records::in_memory(Vec::new(alloc))
    }

    // No record yet. Short ones will lie in the memory of these bytes, which are let go.
    pub(crate) fn in_memory(memory: Vec<u8>) -> Records
        ensures { result ≡ [] }
    {
        let alloc = *memory.allocator();
        Records {
            short: ShortRecords::in_memory(memory),
            long: LongRecords::new(alloc),
            expected: 0,
        }
    }

    // The memory of short ones, with nothing in it.
    pub(crate) fn into_memory(self) -> Vec<u8>
        ensures { result.items ≡ [] }
    {
        let Records {
            short,
            long: _,
            expected: _,
        } = self;
        short.into_memory()
    }

    // Makes room for about as many more as a file of this size has.
    pub(crate) fn reserve(&mut self, size: usize) -> Result<(), OutOfMemory>
        ensures { self.new ≡ self.old }
    {
        self.expected = size;
        self.short.reserve(size)
    }

    pub(crate) fn len(&self) -> usize
        ensures { result ≡ length self.now }
    {
        self.short.len() + self.long.len()
    }

    // The record of a row, from 1: one with no field where there is no such row.
    #[inline(always)]
    pub(crate) fn record(&self, row: usize) -> Record<'_>
        ensures { result ≡ record_at self.now row }
    {
        if row == 0 || row > self.len() {
            return self.long.no_record();
        }
        self.record_after(row - 1)
    }

    // The record after the first ones, as many as `passed`.
    #[inline(always)]
    pub(crate) fn record_after(&self, passed: usize) -> Record<'_>
        requires { passed < length self.now }
        ensures { result ≡ record_at self.now (passed + 1) }
    {
        let short = self.short.len();
        if passed < short {
            return Record::of_short(self.short.get(passed), self.long.fields());
        }
        self.long.record(passed - short)
    }

    // Each record has a field, and each field is UTF-8: facts for callers.
    pub(crate) fn are_filled_with_text(&self)
        ensures filled { All (λ fields. 0 < length fields) self.now }
        ensures text { All AllText self.now }
    {
        self.short.are_filled_with_text();
        self.long.are_filled_with_text();
    }

    // Adds a record of one field. A refusal leaves the records as they were.
    pub(crate) fn push_record(&mut self, field: &str) -> Result<(), OutOfMemory>
        ensures ok { OnOk result (self.new ≡ self.old ++ (field.now ∷ []) ∷ []) }
        ensures err { OnErr result (self.new ≡ self.old) }
    {
        self.long.push_record(field)
    }

    // Adds a record that `csv` read. A refusal leaves the records as they were.
    pub(crate) fn push_row(&mut self, row: &ByteRecord) -> Result<(), OutOfMemory>
        requires text { AllText (fields_of row.now) }
        requires filled { 0 < length (fields_of row.now) }
        requires whole { IsRecord row.now }
        ensures ok { OnOk result (self.new ≡ self.old ++ fields_of row.now ∷ []) }
        ensures err { OnErr result (self.new ≡ self.old) }
    {
        if self.long.len() == 0 {
            if self.short.push(row)? {
                return Ok(());
            }
            // (memory that is handed in may be far larger than the file)
            self.long.reserve(self.short.room().min(self.expected))?;
        }
        self.long.push_row(row)
    }

    // Keeps the first records, as many as `count`.
    pub(crate) fn truncate(&mut self, count: usize)
        ensures { self.new ≡ take count self.old }
    {
        let short = self.short.len();
        self.short.truncate(count);
        self.long.truncate(count.saturating_sub(short));
    }

    // Adds a field to the last record. A refusal leaves the records as they were.
    pub(crate) fn push_field(&mut self, field: &str) -> Result<(), OutOfMemory>
        requires { 0 < length self.old }
        ensures ok { OnOk result (self.new ≡ add_to_last self.old field.now) }
        ensures err { OnErr result (self.new ≡ self.old) }
    {
        make_last_long(&mut self.short, &mut self.long)?;
        self.long.push_field(field)
    }
}

// Makes the last record a long one, which can grow. A refusal leaves the records as they were.
fn make_last_long(short: &mut ShortRecords, long: &mut LongRecords) -> Result<(), OutOfMemory>
    requires { 0 < length (short.old ++ long.old) }
    ensures kept { short.new ++ long.new ≡ short.old ++ long.old }
    ensures long { OnOk result (0 < length long.new) }
{
    if long.len() > 0 {
        return Ok(());
    }
    short.are_filled_with_text();
    let mut row = ByteRecord::new(short.allocator());
    let count = short.len() - 1;
    let last = Record::of_short(short.get(count), long.fields());
    copy_record(&last, &mut row)?;
    long.push_row(&row)?;
    short.truncate(count);
    Ok(())
}
