ghost use Rattle.std.specs.Prelude.{◌≡◌, ◌++◌, ◌∷◌, ◌<◌, [], length, slice_get, IfOk, OnErr, OnOk, Some};

use gtfs_field::OutOfMemory;
use std::alloc::Global;
use std::marker::Model;

// Numbers of rows in an order. Those that follow each other from the first one on, as the numbers
// of all rows of a file without blank lines, take no memory.
#[derive(Drop)]
pub(crate) struct RowNumbers {
    first: u32,
    // How many numbers follow each other from the first one on.
    count: u32,
    // Those after them.
    others: Vec<u32>,
}

impl Model for RowNumbers {
    ghost use Rattle.std.specs.Prelude.{◌++◌, ◌+◌, ◌≤◌, ℕ, List};
    ghost use Rattle.std.specs.List.{range_with_len};

    ghost Value = { List ℕ };

    ghost view = { λ n. range_with_len n.first n.count ++ n.others.items };

    ghost invariant = { λ n. n.first + n.count ≤ 4_294_967_296 };
}

impl RowNumbers {
    // None yet.
    pub(crate) fn new(alloc: Global) -> RowNumbers
        ensures { result ≡ [] }
    {
        RowNumbers::of(Vec::new(alloc))
    }

    // These numbers.
    pub(crate) fn of(numbers: Vec<u32>) -> RowNumbers
        ensures { result ≡ numbers.items }
    {
        RowNumbers {
            first: 0,
            count: 0,
            others: numbers,
        }
    }

    // The same numbers again.
    pub(crate) fn copy(&self, alloc: Global) -> Result<RowNumbers, OutOfMemory>
        ensures { IfOk result (λ copy. copy ≡ self.now) }
    {
        let mut others = Vec::with_capacity(alloc, self.others.len())?;
        others.extend_from_slice(&self.others)?;
        Ok(RowNumbers {
            first: self.first,
            count: self.count,
            others,
        })
    }

    // Adds a number.
    pub(crate) fn push(&mut self, number: u32) -> Result<(), OutOfMemory>
        ensures added { OnOk result (self.new ≡ self.old ++ number ∷ []) }
        ensures kept { OnErr result (self.new ≡ self.old) }
    {
        if self.others.is_empty() && self.count == 0 {
            self.first = number;
            self.count = 1;
            return Ok(());
        }
        let next = u64::from(self.first) + u64::from(self.count);
        if self.others.is_empty() && u64::from(number) == next && self.count < u32::MAX {
            self.count += 1;
            return Ok(());
        }
        self.others.push(number)?;
        Ok(())
    }

    // How many there are.
    pub(crate) fn len(&self) -> usize
        ensures { result ≡ length self.now }
    {
        self.count as usize + self.others.len()
    }

    // The number at an index.
    #[inline(always)]
    pub(crate) fn get(&self, at: usize) -> u32
        requires { at < length self.now }
        ensures { slice_get self.now at ≡ Some result }
    {
        let count = self.count as usize;
        if at < count {
            return self.first + at as u32;
        }
        self.others[at - count]
    }
}
