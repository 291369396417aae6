ghost use Rattle.std.specs.Prelude.{◌≡◌, ◌<◌, ℕ, All, IfOk, IfSome, None, length, map, slice_index_or};
ghost use Rattle.gtfs_merge.specs.MergeEntries.{entry_value};
ghost use Rattle.gtfs_merge.specs.EntryRows.{AreMergedRows};
ghost use Rattle.gtfs_merge.specs.NewNumbers.{AreNumbered, AreRenumbered, number_or, numbers_of, with_number};
ghost use Rattle.gtfs_merge.specs.Twins.{of_kind, twin_rows};
ghost use Rattle.gtfs_merge.specs.declared.kind.Side.{Side as SideOf};

use crate::feed_ids::count_of;
use crate::joining::twins::Twins;
use crate::kind::{Kind, Side};
use crate::numbering::sorted_rows::MergedRow;
use crate::sides::Sides;
use gtfs_field::OutOfMemory;
use std::alloc::Global;
use std::marker::Model;

// The numbers in the merged feed of the rows of one kind, by their numbers on each side.
pub(crate) struct Numbers {
    a: Vec<usize>,
    b: Vec<usize>,
}

impl Model for Numbers {
    ghost use Rattle.gtfs_merge.specs.NewNumbers.{NewNumbers};

    ghost Value = { NewNumbers };

    ghost view = { λ n. record { a = n.a.items; b = n.b.items } };
}

// Written out, so that a function that lets numbers go has one call to prove.
impl Drop for Numbers {
    fn drop(self) {
        let Numbers { a: _, b: _ } = self;
    }
}

impl Numbers {
    // The numbers that rows get where these are the merged rows of the kind.
    pub(crate) fn of_rows(
        alloc: Global,
        sides: &Sides,
        twins: &Twins,
        kind: Kind,
        rows: &[MergedRow],
    ) -> Result<Numbers, OutOfMemory>
        requires twins { twins.now ≡ twin_rows sides.now }
        requires rows { AreMergedRows kind sides.now (map entry_value rows.now) }
        ensures { IfOk result (AreRenumbered kind sides.now) }
    {
        sides.soundness();
        let mut numbers = Numbers::with_zeros(
            alloc,
            count_of(sides.a, kind),
            count_of(sides.b, kind),
        )?;
        numbers.set_rows(rows);
        numbers.set_twins(twins, kind);
        Ok(numbers)
    }

    // The new number of each row of a side.
    pub(crate) fn of(&self, side: Side) -> &[usize]
        ensures { result.now ≡ numbers_of self.now side }
    {
        match side {
            Side::A => self.a.as_slice(),
            Side::B => self.b.as_slice(),
        }
    }

    // No numbers yet, and room for these many rows of both sides.
    fn with_zeros(alloc: Global, a: usize, b: usize) -> Result<Numbers, OutOfMemory>
        ensures a { IfOk result (λ n. length n.a ≡ a) }
        ensures b { IfOk result (λ n. length n.b ≡ b) }
    {
        Ok(Numbers {
            a: vec![in alloc; 0; a]?,
            b: vec![in alloc; 0; b]?,
        })
    }

    // Sets the numbers of the rows that the merged feed has.
    fn set_rows(&mut self, rows: &[MergedRow])
        requires { All (λ e. e.number < length (numbers_of self.old e.side))
            (map entry_value rows.now) }
        ensures count { (side : SideOf) → length (numbers_of self.new side)
            ≡ length (numbers_of self.old side) }
        ensures numbers { AreNumbered (map entry_value rows.now) self.new
            (map entry_value rows.now) }
    {
        for index in 0..rows.len() {
            let row = &rows[index];
            self.set(row.side, row.number, index);
        }
    }

    // Sets the number of a row.
    fn set(&mut self, side: Side, number: usize, index: usize)
        requires { number < length (numbers_of self.old side) }
        ensures { self.new ≡ with_number self.old side number index }
    {
        match side {
            Side::A => self.a[number] = index,
            Side::B => self.b[number] = index,
        }
    }

    // Sets the numbers of the rows of B that have twins: those of the twins.
    fn set_twins(&mut self, twins: &Twins, kind: Kind)
        requires count { length (of_kind twins.now kind) ≡ length self.old.b }
        requires within { All (λ o. IfSome o (λ first. first < length self.old.a))
            (of_kind twins.now kind) }
        ensures a { self.new.a ≡ self.old.a }
        ensures count { length self.new.b ≡ length self.old.b }
        ensures numbers { (n : ℕ) → n < length self.old.b → slice_index_or self.new.b n 0
            ≡ number_or self.old.a (slice_index_or (of_kind twins.now kind) n None)
            (slice_index_or self.old.b n 0) }
    {
        for number in 0..self.b.len() {
            let renumbered = self.new_number(twins.of(kind, number), number);
            self.b[number] = renumbered;
        }
    }

    // The new number of a row of B that has this twin, if any.
    fn new_number(&self, first: Option<usize>, number: usize) -> usize
        requires first { IfSome first (λ n. n < length self.now.a) }
        requires within { number < length self.now.b }
        ensures { result ≡ number_or self.now.a first (slice_index_or self.now.b number 0) }
    {
        match first {
            Some(first) => self.a[first],
            None => self.b[number],
        }
    }
}
