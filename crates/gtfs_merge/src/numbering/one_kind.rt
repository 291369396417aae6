ghost use Rattle.std.specs.Prelude.{◌≡◌, IfOk, map};
ghost use Rattle.gtfs_merge.specs.MergeEntries.{entry_value};
ghost use Rattle.gtfs_merge.specs.KindEntries.{AreKindRows};
ghost use Rattle.gtfs_merge.specs.Names.{AreKindNames};
ghost use Rattle.gtfs_merge.specs.NewNumbers.{numbers_of};
ghost use Rattle.gtfs_merge.specs.Twins.{twin_rows};

use crate::joining::twins::Twins;
use crate::kind::{Kind, Side};
use crate::names::Names;
use crate::numbering::new_numbers::Numbers;
use crate::numbering::sorted_rows::{MergedRow, merged_rows};
use crate::sides::Sides;
use gtfs_field::OutOfMemory;
use std::alloc::Global;
use std::marker::Model;

// The merged rows of one kind, and the numbers that the rows of both sides have among them.
pub(crate) struct KindRows<'a> {
    rows: Vec<MergedRow<'a>>,
    numbers: Numbers,
}

impl<'a> Model for KindRows<'a> {
    ghost use Rattle.std.specs.Prelude.{map};
    ghost use Rattle.gtfs_merge.specs.KindEntries.{KindEntries};
    ghost use Rattle.gtfs_merge.specs.MergeEntries.{entry_value};

    ghost Value = { KindEntries };

    ghost view = { λ r. record { rows = map entry_value r.rows.items; numbers = r.numbers } };
}

// Written out, so that a function that lets rows go has one call to prove.
impl Drop for KindRows<'_> {
    fn drop(self) {
        let KindRows {
            rows: _,
            numbers: _,
        } = self;
    }
}

impl<'a> KindRows<'a> {
    // The merged rows of a kind.
    pub(crate) fn of_feeds(
        alloc: Global,
        sides: &Sides,
        twins: &Twins,
        names: &'a Names,
        kind: Kind,
    ) -> Result<KindRows<'a>, OutOfMemory>
        requires twins { twins.now ≡ twin_rows sides.now }
        requires names { AreKindNames sides.now names.now }
        ensures { IfOk result (AreKindRows kind sides.now) }
    {
        let rows = merged_rows(alloc, sides, twins, names, kind)?;
        let numbers = Numbers::of_rows(alloc, sides, twins, kind, rows.as_slice())?;
        Ok(KindRows { rows, numbers })
    }

    // The rows in the order of their new ids.
    pub(crate) fn rows(&self) -> &[MergedRow<'a>]
        ensures { map entry_value result.now ≡ self.now.rows }
    {
        self.rows.as_slice()
    }

    // The new number of each row of a side.
    pub(crate) fn numbers(&self, side: Side) -> &[usize]
        ensures { result.now ≡ numbers_of self.now.numbers side }
    {
        self.numbers.of(side)
    }

    // The new numbers, for which the rows are let go.
    pub(crate) fn into_numbers(self) -> Numbers
        ensures { result ≡ self.entry.numbers }
    {
        let KindRows { rows: _, numbers } = self;
        numbers
    }
}
