ghost use Rattle.std.specs.Prelude.{◌≡◌, ◌<◌, ◌≤◌, ◌+◌, ◌-◌, ◌*◌, ◌%◌, ◌^◌, ◌++◌, ◌∷◌, [], length, take, is_some, IfOk, IfSome, OnErr, slice_index, vec_len, vec_capacity, if◌then◌else◌};
ghost use Rattle.std.specs.List.{concat};
ghost use Rattle.csv.specs.Records.{IsRecord, fields_of};
ghost use Rattle.gtfs_table.specs.FieldOffsets.{starts_of, TellsOffsets};

use csv::ByteRecord;
use gtfs_field::OutOfMemory;
use std::alloc::Global;
use std::marker::Model;
use std::mem;

// How many offsets have one base: few records reach into another block, and two bytes are enough
// for fields of up to 255 bytes on average.
const BLOCK: usize = 256;

// The largest distance that two bytes tell.
const LARGEST: usize = u16::MAX as usize;

// Offsets of two bytes each, in blocks: each is kept as its distance from the base of its block,
// which is the block's first offset.
#[derive(Drop)]
pub(crate) struct Blocks {
    bases: Vec<u32>,
    distances: Vec<u16>,
}

impl Model for Blocks {
    ghost use Rattle.std.specs.Prelude.{List, ℕ};

    ghost Value = { List ℕ };

    ghost use Rattle.gtfs_table.specs.OffsetBlocks.{offsets_in, HasBases};

    ghost view = { offsets_in };

    ghost invariant = { HasBases };
}

impl Blocks {
    pub(crate) fn new(alloc: Global) -> Blocks
        ensures { result ≡ [] }
    {
        Blocks {
            bases: Vec::new(alloc),
            distances: Vec::new(alloc),
        }
    }

    // Makes room for this many more.
    pub(crate) fn reserve(&mut self, count: usize) -> Result<(), OutOfMemory>
        ensures { self.new ≡ self.old }
    {
        self.bases.reserve(count / BLOCK + 1)?;
        self.distances.reserve(count)?;
        Ok(())
    }

    pub(crate) fn len(&self) -> usize
        ensures count { result ≡ length self.now }
        ensures small { result < 2 ^ 62 }
    {
        self.distances.as_slice().len()
    }

    // The offset with this number, from 0.
    #[inline(always)]
    pub(crate) fn get(&self, i: usize) -> usize
        requires { i < length self.now }
        ensures { result ≡ slice_index self.now i }
    {
        self.bases[i / BLOCK] as usize + self.distances[i] as usize
    }

    // The offsets with the numbers from `start` to `end` as far as they stand in one block: its
    // base, and their distances from it. None where the list ends before.
    #[inline(always)]
    pub(crate) fn near(&self, start: usize, end: usize) -> (usize, &[u16])
        requires { start ≤ end }
        ensures few { length result.1.now ≤ end - start + 1 }
        ensures told { TellsOffsets result.0 result.1.now self.now start }
    {
        let distances = self.distances.as_slice();
        let last = start + (end - start).min(BLOCK - 1 - start % BLOCK);
        if distances.len() <= last {
            return (0, &[]);
        }
        let base = self.bases[start / BLOCK] as usize;
        (base, &distances[start..last + 1])
    }

    // Adds an offset at the end where two bytes are enough for it, and tells whether it did. A
    // refusal leaves the list as it was.
    #[inline]
    pub(crate) fn push(&mut self, offset: usize) -> Result<bool, OutOfMemory>
        ensures ok { IfOk result (λ added. self.new
            ≡ (if added then self.old ++ offset ∷ [] else self.old)) }
        ensures err { OnErr result (self.new ≡ self.old) }
    {
        let count = self.distances.len();
        if count % BLOCK == 0 {
            return self.begin_block(offset);
        }
        let base = self.bases[count / BLOCK] as usize;
        if offset < base || offset - base > LARGEST {
            return Ok(false);
        }
        self.distances.push((offset - base) as u16)?;
        Ok(true)
    }

    // The same, where all blocks are full: the offset is the base of the next one.
    #[inline(never)]
    fn begin_block(&mut self, offset: usize) -> Result<bool, OutOfMemory>
        requires { length self.old % 256 ≡ 0 }
        ensures ok { IfOk result (λ added. self.new
            ≡ (if added then self.old ++ offset ∷ [] else self.old)) }
        ensures err { OnErr result (self.new ≡ self.old) }
    {
        match u32::try_from(offset) {
            Ok(base) => {
                self.bases.reserve(1)?;
                self.distances.push(0)?;
                self.bases.push_reserved(base);
                Ok(true)
            }
            Err(_) => Ok(false),
        }
    }

    // Adds where the fields of a record begin, the first at `first`, and gives their size:
    // where the last block has room for them all and two bytes are enough for each. A
    // refusal leaves the list as it was.
    #[inline]
    pub(crate) fn append(
        &mut self,
        first: usize,
        row: &ByteRecord,
    ) -> Result<Option<usize>, OutOfMemory>
        requires whole { IsRecord row.now }
        requires within { first + length row.now.bytes < 2 ^ 64 }
        ensures starts { IfOk result (λ size. self.new ≡ (if is_some size
            then self.old ++ starts_of first (fields_of row.now) else self.old)) }
        ensures size { IfOk result (λ size. IfSome size (λ size. size
            ≡ length (concat (fields_of row.now)))) }
        ensures err { OnErr result (self.new ≡ self.old) }
    {
        let count = self.distances.len();
        let begun = count % BLOCK;
        if begun == 0 || row.len() > BLOCK - begun {
            return Ok(None);
        }
        let base = self.bases[count / BLOCK] as usize;
        if first < base || first + row.as_slice().len() - base > LARGEST {
            return Ok(None);
        }
        self.distances.reserve(row.len())?;
        let alloc = *self.distances.allocator();
        let distances = mem::replace(&mut self.distances, Vec::new(alloc));
        let (distances, size) = push_starts(distances, first - base, row);
        self.distances = distances;
        Ok(Some(size))
    }

    // Keeps the first offsets, as many as `count`.
    pub(crate) fn truncate(&mut self, count: usize)
        ensures { self.new ≡ take count self.old }
    {
        self.distances.truncate(count);
        self.bases.truncate(self.distances.len().div_ceil(BLOCK));
    }
}

// Adds where the fields of a record begin, the first at `start`, and gives their size. The list
// comes by value, so that its length can stay in a register.
fn push_starts(mut distances: Vec<u16>, start: usize, row: &ByteRecord) -> (Vec<u16>, usize)
    requires whole { IsRecord row.now }
    requires room { vec_len distances + length (fields_of row.now) ≤ vec_capacity distances }
    requires short { start + length row.now.bytes < 2 ^ 16 }
    ensures starts { result.0.items ≡ distances.items ++ starts_of start (fields_of row.now) }
    ensures size { result.1 ≡ length (concat (fields_of row.now)) }
{
    let mut size = 0;
    for field in row {
        distances.push_reserved((start + size) as u16);
        size += field.len();
    }
    (distances, size)
}
