ghost use Rattle.std.specs.Prelude.{◌≡◌, ◌<◌, ◌≤◌, ◌-◌, ◌++◌, ◌∷◌, [], length, take, drop, OnOk, OnErr, slice_index_or};
ghost use Rattle.std.specs.List.{concat};
ghost use Rattle.csv.specs.Records.{AllText, IsRecord, fields_of};
ghost use Rattle.gtfs_table.specs.FieldOffsets.{starts_of, TellsFields};

use crate::offsets::Offsets;
use csv::ByteRecord;
use gtfs_field::OutOfMemory;
use std::alloc::Global;
use std::marker::Model;

// A list of texts that lie in one buffer, so that none has an allocation of its own.
#[derive(Drop)]
pub(crate) struct Texts {
    bytes: Vec<u8>,
    starts: Offsets,
}

impl Model for Texts {
    ghost use Rattle.std.specs.Prelude.{List, ℕ};

    ghost Value = { List (List ℕ) };

    ghost use Rattle.gtfs_table.specs.StoredRecords.{texts_of, IsTextStore};

    ghost view = { texts_of };

    ghost invariant = { IsTextStore };
}

impl Texts {
    pub(crate) fn new(alloc: Global) -> Texts
        ensures { result ≡ [] }
    {
        Texts {
            bytes: Vec::new(alloc),
            starts: Offsets::new(alloc),
        }
    }

    // Makes room for this many more texts that come to this many bytes.
    pub(crate) fn reserve(&mut self, count: usize, size: usize) -> Result<(), OutOfMemory>
        ensures { self.new ≡ self.old }
    {
        self.bytes.reserve(size)?;
        self.starts.reserve(count)
    }

    pub(crate) fn len(&self) -> usize
        ensures { result ≡ length self.now }
    {
        self.starts.len()
    }

    // The text with this number, from 0.
    #[inline(always)]
    pub(crate) fn get(&self, i: usize) -> &str
        requires { i < length self.now }
        ensures { result.now ≡ slice_index_or self.now i [] }
    {
        let bytes = self.bytes.as_slice();
        let (start, end) = self.starts.span(i, bytes.len());
        unsafe { str::from_utf8_unchecked(&bytes[start..end]) }
    }

    // The same, where one block of offsets does not tell it.
    #[inline(never)]
    pub(crate) fn get_far(&self, i: usize) -> &str
        requires { i < length self.now }
        ensures { result.now ≡ slice_index_or self.now i [] }
    {
        self.get(i)
    }

    // The bytes from the base of a block on, and where in these the texts with the numbers from
    // `start` to `end` begin, as far as they stand in that block.
    #[inline(always)]
    pub(crate) fn near(&self, start: usize, end: usize) -> (&[u8], &[u16])
        requires start { start ≤ end }
        requires end { end ≤ length self.now }
        ensures { TellsFields result.0.now result.1.now (take (end - start) (drop start self.now)) }
    {
        let bytes = self.bytes.as_slice();
        let (base, distances) = self.starts.near(start, end);
        if bytes.len() < base {
            return (&[], &[]);
        }
        (&bytes[base..], distances)
    }

    // Each text is UTF-8: a fact for callers.
    pub(crate) fn are_utf8(&self)
        ensures { AllText self.now }
    {
        let _ = &self.bytes;
    }

    // Adds a text at the end. A refusal leaves the list as it was.
    pub(crate) fn push(&mut self, text: &str) -> Result<(), OutOfMemory>
        ensures ok { OnOk result (self.new ≡ self.old ++ text.now ∷ []) }
        ensures err { OnErr result (self.new ≡ self.old) }
    {
        let bytes = text.as_bytes();
        self.bytes.reserve(bytes.len())?;
        self.starts.push(self.bytes.len())?;
        self.bytes.extend_from_slice(bytes).unwrap();
        Ok(())
    }

    // Keeps the first texts, as many as `count`.
    pub(crate) fn truncate(&mut self, count: usize)
        ensures { self.new ≡ take count self.old }
    {
        if count < self.starts.len() {
            let (start, _) = self.starts.span(count, self.bytes.len());
            self.starts.truncate(count);
            self.bytes.truncate(start);
        }
    }

    // Adds the fields of a record that `csv` read. A refusal leaves the list as it was.
    pub(crate) fn append(&mut self, row: &ByteRecord) -> Result<(), OutOfMemory>
        requires text { AllText (fields_of row.now) }
        requires whole { IsRecord row.now }
        ensures ok { OnOk result (self.new ≡ self.old ++ fields_of row.now) }
        ensures err { OnErr result (self.new ≡ self.old) }
    {
        let count = self.starts.len();
        let appended = append_fields(&mut self.bytes, &mut self.starts, row);
        if appended.is_err() {
            self.starts.truncate(count);
        }
        appended
    }
}

// The bytes of all fields are copied at once. A refusal may leave more offsets than there were.
fn append_fields(
    bytes: &mut Vec<u8>,
    starts: &mut Offsets,
    row: &ByteRecord,
) -> Result<(), OutOfMemory>
    requires { IsRecord row.now }
    ensures starts { OnOk result
        (starts.new ≡ starts.old ++ starts_of (length bytes.old.items) (fields_of row.now)) }
    ensures bytes { OnOk result (bytes.new.items ≡ bytes.old.items ++ concat (fields_of row.now)) }
    ensures front { OnErr result (take (length starts.old) starts.new ≡ starts.old) }
    ensures kept { OnErr result (bytes.new.items ≡ bytes.old.items) }
{
    let row_bytes = row.as_slice();
    let size = starts.append(bytes.as_slice().len(), row)?;
    bytes.extend_from_slice(&row_bytes[..size])
}
