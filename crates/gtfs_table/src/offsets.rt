ghost use Rattle.std.specs.Prelude.{◌≡◌, ◌<◌, ◌≤◌, ◌+◌, ◌-◌, ◌^◌, ◌++◌, ◌∷◌, [], length, take, IfOk, OnOk, OnErr, slice_index, slice_index_or};
ghost use Rattle.std.specs.List.{concat};
ghost use Rattle.csv.specs.Records.{IsRecord, fields_of};
ghost use Rattle.gtfs_table.specs.FieldOffsets.{starts_of, TellsOffsets};

use crate::blocks::Blocks;
use csv::ByteRecord;
use gtfs_field::OutOfMemory;
use std::alloc::Global;
use std::marker::Model;

// Offsets in a buffer, of two bytes each until the first that needs more than its distance from the
// base of its block, and then of four bytes each until the first that takes more.
#[derive(Drop)]
pub(crate) struct Offsets {
    blocks: Blocks,
    narrow: Vec<u32>,
    wide: Vec<u64>,
}

impl Model for Offsets {
    ghost use Rattle.std.specs.Prelude.{List, ℕ, ◌++◌};

    ghost Value = { List ℕ };

    ghost view = { λ p. p.blocks ++ p.narrow.items ++ p.wide.items };
}

impl Offsets {
    pub(crate) fn new(alloc: Global) -> Offsets
        ensures { result ≡ [] }
    {
        Offsets {
            blocks: Blocks::new(alloc),
            narrow: Vec::new(alloc),
            wide: Vec::new(alloc),
        }
    }

    // Makes room for this many more.
    pub(crate) fn reserve(&mut self, count: usize) -> Result<(), OutOfMemory>
        ensures { self.new ≡ self.old }
    {
        self.blocks.reserve(count)
    }

    #[inline(always)]
    pub(crate) fn len(&self) -> usize
        ensures count { result ≡ length self.now }
        ensures small { result < 2 ^ 63 }
    {
        self.are_few();
        self.blocks.len() + self.narrow.len() + self.wide.len()
    }

    // One more has a number too: a fact for callers.
    #[inline(always)]
    fn are_few(&self)
        ensures { length self.now < 2 ^ 63 }
    {
        let _ = self.blocks.len();
        let _ = self.narrow.as_slice();
        let _ = self.wide.as_slice();
    }

    // Where the part with this number begins and ends: it begins at the offset with that number,
    // and ends at the next one, or else at `size`.
    #[inline(always)]
    pub(crate) fn span(&self, i: usize, size: usize) -> (usize, usize)
        requires { i < length self.now }
        ensures start { result.0 ≡ slice_index self.now i }
        ensures end { result.1 ≡ slice_index_or self.now (i + 1) size }
    {
        self.are_few();
        if i + 1 < self.blocks.len() {
            (self.blocks.get(i), self.blocks.get(i + 1))
        } else {
            self.span_far(i, size)
        }
    }

    // The same by a call, for what is seldom asked: the last part, those that begin far on, and the
    // fields of a long record.
    #[inline(never)]
    pub(crate) fn span_far(&self, i: usize, size: usize) -> (usize, usize)
        requires { i < length self.now }
        ensures start { result.0 ≡ slice_index self.now i }
        ensures end { result.1 ≡ slice_index_or self.now (i + 1) size }
    {
        (self.get(i), self.end_of(i, size))
    }

    // The offsets with the numbers from `start` to `end` as far as they stand in one block: its
    // base, and their distances from it. None where the blocks end before.
    #[inline(always)]
    pub(crate) fn near(&self, start: usize, end: usize) -> (usize, &[u16])
        requires { start ≤ end }
        ensures few { length result.1.now ≤ end - start + 1 }
        ensures told { TellsOffsets result.0 result.1.now self.now start }
    {
        self.blocks.near(start, end)
    }

    // The offset with this number, from 0.
    fn get(&self, i: usize) -> usize
        requires { i < length self.now }
        ensures { result ≡ slice_index self.now i }
    {
        let short = self.blocks.len();
        if i < short {
            self.blocks.get(i)
        } else if i - short < self.narrow.len() {
            self.narrow[i - short] as usize
        } else {
            self.wide[i - short - self.narrow.len()] as usize
        }
    }

    // The offset after the one with this number, or else `size`.
    fn end_of(&self, i: usize, size: usize) -> usize
        requires { i < length self.now }
        ensures { result ≡ slice_index_or self.now (i + 1) size }
    {
        let last = self.len() - 1;
        if i < last { self.get(i + 1) } else { size }
    }

    // Adds an offset at the end. A refusal leaves the list as it was.
    #[inline]
    pub(crate) fn push(&mut self, offset: usize) -> Result<(), OutOfMemory>
        ensures ok { OnOk result (self.new ≡ self.old ++ offset ∷ []) }
        ensures err { OnErr result (self.new ≡ self.old) }
    {
        if self.narrow.is_empty() && self.wide.is_empty() && self.blocks.push(offset)? {
            return Ok(());
        }
        self.push_far(offset)
    }

    // The same, for one that needs more than two bytes, and for those after it.
    #[inline(never)]
    fn push_far(&mut self, offset: usize) -> Result<(), OutOfMemory>
        ensures ok { OnOk result (self.new ≡ self.old ++ offset ∷ []) }
        ensures err { OnErr result (self.new ≡ self.old) }
    {
        match u32::try_from(offset) {
            Ok(narrow) if self.wide.is_empty() => self.narrow.push(narrow)?,
            _ => self.wide.push(offset as u64)?,
        }
        Ok(())
    }

    // Adds where the fields of a record begin, the first at `first`, and gives their size. A
    // refusal may leave more offsets than there were.
    pub(crate) fn append(&mut self, first: usize, row: &ByteRecord) -> Result<usize, OutOfMemory>
        requires whole { IsRecord row.now }
        requires within { first + length row.now.bytes < 2 ^ 64 }
        ensures starts { OnOk result (self.new ≡ self.old ++ starts_of first (fields_of row.now)) }
        ensures size { IfOk result (λ size. size ≡ length (concat (fields_of row.now))) }
        ensures front { OnErr result (take (length self.old) self.new ≡ self.old) }
    {
        if self.narrow.is_empty()
            && self.wide.is_empty()
            && let Some(size) = self.blocks.append(first, row)?
        {
            return Ok(size);
        }
        self.append_each(first, row)
    }

    // The same, one after the other.
    fn append_each(&mut self, first: usize, row: &ByteRecord) -> Result<usize, OutOfMemory>
        requires whole { IsRecord row.now }
        requires within { first + length row.now.bytes < 2 ^ 64 }
        ensures starts { OnOk result (self.new ≡ self.old ++ starts_of first (fields_of row.now)) }
        ensures size { IfOk result (λ size. size ≡ length (concat (fields_of row.now))) }
        ensures front { OnErr result (take (length self.old) self.new ≡ self.old) }
    {
        let mut size = 0;
        for field in row {
            self.push(first + size)?;
            size += field.len();
        }
        Ok(size)
    }

    // Keeps the first offsets, as many as `count`.
    pub(crate) fn truncate(&mut self, count: usize)
        ensures { self.new ≡ take count self.old }
    {
        let short = self.blocks.len();
        let narrow = self.narrow.len();
        if count < short {
            self.blocks.truncate(count);
            self.narrow.clear();
            self.wide.clear();
        } else if count - short < narrow {
            self.narrow.truncate(count - short);
            self.wide.clear();
        } else {
            self.wide.truncate(count - short - narrow);
        }
    }
}
