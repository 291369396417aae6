ghost use Rattle.std.specs.Prelude.{All, ◌≡◌, ◌<◌, ◌-◌, ◌^◌, ◌++◌, ◌∷◌, [], length, take, IfOk, OnErr, if◌then◌else◌, slice_index_or};
ghost use Rattle.csv.specs.Records.{AllText, IsRecord, fields_of};
ghost use Rattle.gtfs_table.specs.StoredRecords.{IsRun, fields_in};

use crate::runs::Runs;
use csv::ByteRecord;
use gtfs_field::OutOfMemory;
use std::alloc::Global;
use std::marker::Model;

// The most that the fields of a short record and their bytes come to. There is one mark more than
// fields, so that the last mark is at most what a byte tells.
const LONGEST: usize = u8::MAX as usize - 1;

// Few large files have shorter records, the commas counted.
const BYTES_OF_A_RECORD: usize = 32;

// Records of which each is a run of at most 255 bytes: where in the run its first field begins,
// where each field ends, by one byte each, and the bytes of the fields.
#[derive(Drop)]
pub(crate) struct ShortRecords {
    runs: Runs,
}

impl Model for ShortRecords {
    ghost use Rattle.std.specs.Prelude.{List, ℕ};

    ghost Value = { List (List (List ℕ)) };

    ghost use Rattle.gtfs_table.specs.StoredRecords.{short_stored, IsShortStore};

    ghost view = { short_stored };

    ghost invariant = { IsShortStore };
}

impl ShortRecords {
    // No record yet. The runs will lie in the memory of these bytes, which are let go.
    pub(crate) fn in_memory(memory: Vec<u8>) -> ShortRecords
        ensures { result ≡ [] }
    {
        ShortRecords {
            runs: Runs::in_memory(memory),
        }
    }

    // The memory of the runs, with nothing in it.
    pub(crate) fn into_memory(self) -> Vec<u8>
        ensures { result.items ≡ [] }
    {
        let ShortRecords { runs } = self;
        runs.into_memory()
    }

    // Makes room for about as many more as a file of this size has: a record has a mark for each
    // comma and line end, and one more. Room that is not used is asked for and not touched.
    pub(crate) fn reserve(&mut self, size: usize) -> Result<(), OutOfMemory>
        ensures { self.new ≡ self.old }
    {
        let count = size / BYTES_OF_A_RECORD;
        self.runs.reserve(count, size.saturating_add(count))
    }

    #[inline(always)]
    pub(crate) fn len(&self) -> usize
        ensures count { result ≡ length self.now }
        ensures small { result < 2 ^ 63 }
    {
        self.runs.len()
    }

    // The run of the record with this number, from 0.
    #[inline(always)]
    pub(crate) fn get(&self, i: usize) -> &[u8]
        requires { i < length self.now }
        ensures run { IsRun result.now }
        ensures fields { fields_in result.now ≡ slice_index_or self.now i [] }
    {
        self.runs.get(i)
    }

    // Each record has a field, and each field is UTF-8: facts for callers.
    pub(crate) fn are_filled_with_text(&self)
        ensures filled { All (λ fields. 0 < length fields) self.now }
        ensures text { All AllText self.now }
    {
        let _ = &self.runs;
    }

    pub(crate) fn allocator(&self) -> Global {
        self.runs.allocator()
    }

    // How many bytes there is room for.
    pub(crate) fn room(&self) -> usize {
        self.runs.room()
    }

    // Adds a record that `csv` read where it is short enough, and tells whether it did. A refusal
    // leaves the records as they were.
    pub(crate) fn push(&mut self, row: &ByteRecord) -> Result<bool, OutOfMemory>
        requires text { AllText (fields_of row.now) }
        requires filled { 0 < length (fields_of row.now) }
        requires whole { IsRecord row.now }
        ensures ok { IfOk result (λ added. self.new
            ≡ (if added then self.old ++ fields_of row.now ∷ [] else self.old)) }
        ensures err { OnErr result (self.new ≡ self.old) }
    {
        let size = row.as_slice().len();
        if size > LONGEST || row.len() > LONGEST - size {
            return Ok(false);
        }
        self.runs.push(row)?;
        Ok(true)
    }

    // Keeps the first records, as many as `count`.
    pub(crate) fn truncate(&mut self, count: usize)
        ensures { self.new ≡ take count self.old }
    {
        self.runs.truncate(count);
    }
}
