ghost use Rattle.std.specs.List.Sorted.{IsPermutation, IsSorted};
ghost use Rattle.std.specs.Ordering.{on};
ghost use Rattle.std.specs.Prelude.{◌≡◌, ◌<◌, ◌∷◌, ◌++◌, [], IfOk, OnOk, filter, length, map};
ghost use Rattle.gtfs_field.specs.TextOrder.{text_cmp};
ghost use Rattle.gtfs_merge.specs.MergeEntries.{entry_of, entry_value, is_apart, rows_of_a, rows_of_b};
ghost use Rattle.gtfs_merge.specs.EntryRows.{AreMergedRows};
ghost use Rattle.gtfs_merge.specs.FeedIds.{known_ids};
ghost use Rattle.gtfs_merge.specs.Names.{AreKindNames};
ghost use Rattle.gtfs_merge.specs.MergedSides.{side_parts};
ghost use Rattle.gtfs_merge.specs.Twins.{twin_rows};
ghost use Rattle.gtfs_merge.specs.declared.kind.Side.TheVariants as side;

use crate::feed_ids::count_of;
use crate::joining::twins::Twins;
use crate::kind::{Kind, Side};
use crate::names::Names;
use crate::sides::Sides;
use gtfs_field::OutOfMemory;
use std::alloc::Global;
use std::cmp::Ordering;

// A row of the merged feed under its new id, by its number on one side.
// A row of B with a twin is that of A.
#[derive(Drop)]
pub(crate) struct MergedRow<'a> {
    pub(crate) id: &'a str,
    pub(crate) side: Side,
    pub(crate) number: usize,
}

// The rows of a kind of the merged feed, by their new ids:
// all of A's and those of B's that have no twin.
pub(crate) fn merged_rows<'a>(
    alloc: Global,
    sides: &Sides,
    twins: &Twins,
    names: &'a Names,
    kind: Kind,
) -> Result<Vec<MergedRow<'a>>, OutOfMemory>
    requires twins { twins.now ≡ twin_rows sides.now }
    requires names { AreKindNames sides.now names.now }
    ensures { IfOk result (λ rows. AreMergedRows kind sides.now (map entry_value rows.items)) }
{
    sides.soundness();
    let mut rows = of_a(alloc, sides, names, kind)?;
    add_of_b(sides, twins, names, kind, &mut rows)?;
    Ok(sorted(rows)?)
}

// The rows of A under their new ids.
fn of_a<'a>(
    alloc: Global,
    sides: &Sides,
    names: &'a Names,
    kind: Kind,
) -> Result<Vec<MergedRow<'a>>, OutOfMemory>
    requires { AreKindNames sides.now names.now }
    ensures { IfOk result (λ rows. map entry_value rows.items ≡ rows_of_a kind sides.now) }
{
    let mut rows = Vec::new(alloc);
    for number in 0..count_of(sides.a, kind) {
        rows.push(row_of(sides, names, Side::A, kind, number))?;
    }
    Ok(rows)
}

// A row of a side under its new id.
fn row_of<'a>(
    sides: &Sides,
    names: &'a Names,
    side: Side,
    kind: Kind,
    number: usize,
) -> MergedRow<'a>
    requires names { AreKindNames sides.now names.now }
    requires within { number < length (known_ids kind (side_parts side sides.now)) }
    ensures { entry_value result ≡ entry_of side kind sides.now number }
{
    MergedRow {
        id: names.by_number(side, kind, number),
        side,
        number,
    }
}

// Adds the rows of B that have no twin.
fn add_of_b<'a>(
    sides: &Sides,
    twins: &Twins,
    names: &'a Names,
    kind: Kind,
    rows: &mut Vec<MergedRow<'a>>,
) -> Result<(), OutOfMemory>
    requires twins { twins.now ≡ twin_rows sides.now }
    requires names { AreKindNames sides.now names.now }
    ensures { OnOk result (map entry_value rows.new.items
        ≡ map entry_value rows.old.items ++ rows_of_b kind sides.now) }
{
    for number in 0..count_of(sides.b, kind) {
        add_if_apart(sides, twins, names, kind, number, rows)?;
    }
    Ok(())
}

// Adds a row of B that has no twin.
fn add_if_apart<'a>(
    sides: &Sides,
    twins: &Twins,
    names: &'a Names,
    kind: Kind,
    number: usize,
    rows: &mut Vec<MergedRow<'a>>,
) -> Result<(), OutOfMemory>
    requires twins { twins.now ≡ twin_rows sides.now }
    requires names { AreKindNames sides.now names.now }
    requires within { number < length (known_ids kind sides.now.b.now) }
    ensures { OnOk result (map entry_value rows.new.items ≡ map entry_value rows.old.items
        ++ map (entry_of side.B kind sides.now)
        (filter (is_apart kind sides.now) (number ∷ []))) }
{
    if !twins.has(kind, number) {
        rows.push(row_of(sides, names, Side::B, kind, number))?;
    }
    Ok(())
}

// The rows by their new ids.
// This sort is fast where long stretches are in order, as the rows of each side mostly are.
fn sorted(mut rows: Vec<MergedRow<'_>>) -> Result<Vec<MergedRow<'_>>, OutOfMemory>
    ensures same { IfOk result (λ sorted. IsPermutation (map entry_value rows.entry.items)
        (map entry_value sorted.items)) }
    ensures in_order { IfOk result (λ sorted. IsSorted (on (λ e. e.id) text_cmp)
        (map entry_value sorted.items)) }
{
    rows.sort_by(|a, b| order(a, b))?;
    Ok(rows)
}

fn order(a: &MergedRow<'_>, b: &MergedRow<'_>) -> Ordering
    ensures { result ≡ text_cmp (entry_value a.now).id (entry_value b.now).id }
{
    a.id.cmp(b.id)
}
