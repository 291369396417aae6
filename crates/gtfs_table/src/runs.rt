ghost use Rattle.std.specs.Prelude.{◌≡◌, ◌<◌, ◌≤◌, ◌+◌, ◌-◌, ◌^◌, ◌++◌, ◌∷◌, [], length, take, IfOk, OnOk, OnErr, slice_index_or, vec_len, vec_capacity};
ghost use Rattle.csv.specs.Records.{IsRecord, fields_of};
ghost use Rattle.gtfs_table.specs.FieldOffsets.{marks_of};
ghost use Rattle.gtfs_table.specs.StoredRecords.{run_of};

use crate::offsets::Offsets;
use csv::ByteRecord;
use gtfs_field::OutOfMemory;
use std::alloc::Global;
use std::marker::Model;
use std::mem;

// Runs of bytes that lie in one buffer, so that none has an allocation of its own.
#[derive(Drop)]
pub(crate) struct Runs {
    starts: Offsets,
    bytes: Vec<u8>,
}

impl Model for Runs {
    ghost use Rattle.std.specs.Prelude.{List, ℕ};

    ghost Value = { List (List ℕ) };

    ghost use Rattle.gtfs_table.specs.StoredRecords.{runs_of, IsRunStore};

    ghost view = { runs_of };

    ghost invariant = { IsRunStore };
}

impl Runs {
    // No run yet. The bytes will lie in the memory of these, which are let go.
    pub(crate) fn in_memory(mut memory: Vec<u8>) -> Runs
        ensures { result ≡ [] }
    {
        let alloc = *memory.allocator();
        memory.clear();
        Runs {
            starts: Offsets::new(alloc),
            bytes: memory,
        }
    }

    // The memory of the bytes, with nothing in it.
    pub(crate) fn into_memory(self) -> Vec<u8>
        ensures { result.items ≡ [] }
    {
        let Runs {
            starts: _,
            mut bytes,
        } = self;
        bytes.clear();
        bytes
    }

    // Makes room for this many more runs that come to this many bytes. Memory that is large enough
    // is used as it is.
    pub(crate) fn reserve(&mut self, count: usize, size: usize) -> Result<(), OutOfMemory>
        ensures { self.new ≡ self.old }
    {
        self.starts.reserve(count)?;
        self.bytes.reserve_exact(size)
    }

    #[inline(always)]
    pub(crate) fn len(&self) -> usize
        ensures count { result ≡ length self.now }
        ensures small { result < 2 ^ 63 }
    {
        self.starts.len()
    }

    pub(crate) fn allocator(&self) -> Global {
        *self.bytes.allocator()
    }

    // How many bytes there is room for.
    pub(crate) fn room(&self) -> usize {
        self.bytes.capacity() - self.bytes.len()
    }

    // The run with this number, from 0.
    #[inline(always)]
    pub(crate) fn get(&self, i: usize) -> &[u8]
        requires { i < length self.now }
        ensures { result.now ≡ slice_index_or self.now i [] }
    {
        let bytes = self.bytes.as_slice();
        let (start, end) = self.starts.span(i, bytes.len());
        &bytes[start..end]
    }

    // Adds a record, which has to be short, as a run: its marks, and then its bytes. A refusal
    // leaves the list as it was.
    pub(crate) fn push(&mut self, row: &ByteRecord) -> Result<(), OutOfMemory>
        requires whole { IsRecord row.now }
        requires short { length (fields_of row.now) + length row.now.bytes < 255 }
        ensures ok { OnOk result (self.new ≡ self.old ++ run_of row.now ∷ []) }
        ensures err { OnErr result (self.new ≡ self.old) }
    {
        let text = row.as_slice();
        self.bytes.reserve(row.len() + 1 + text.len())?;
        self.starts.push(self.bytes.len())?;
        let alloc = *self.bytes.allocator();
        let bytes = mem::replace(&mut self.bytes, Vec::new(alloc));
        self.bytes = with_marks(bytes, row);
        self.bytes.extend_from_slice(text).unwrap();
        Ok(())
    }

    // Keeps the first runs, as many as `count`.
    pub(crate) fn truncate(&mut self, count: usize)
        ensures { self.new ≡ take count self.old }
    {
        if count < self.starts.len() {
            let (start, _) = self.starts.span(count, self.bytes.len());
            self.starts.truncate(count);
            self.bytes.truncate(start);
        }
    }
}

// The bytes, and after them the marks of a record. They come by value, so that their number can
// stay in a register.
fn with_marks(mut bytes: Vec<u8>, row: &ByteRecord) -> Vec<u8>
    requires whole { IsRecord row.now }
    requires room { vec_len bytes + length (fields_of row.now) + 1 ≤ vec_capacity bytes }
    requires short { length (fields_of row.now) + length row.now.bytes < 255 }
    ensures marks { result.items
        ≡ bytes.items ++ marks_of (length (fields_of row.now) + 1) (fields_of row.now) }
    ensures same_room { vec_capacity result ≡ vec_capacity bytes }
{
    let mut end = row.len() + 1;
    bytes.push_reserved(end as u8);
    for field in row {
        end += field.len();
        bytes.push_reserved(end as u8);
    }
    bytes
}
