ghost use Rattle.std.specs.Prelude.{◌≡◌, ◌<◌, ◌++◌, IfOk, OnOk, Some, length};
ghost use Rattle.gtfs_merge.specs.FeedIds.{known_ids};
ghost use Rattle.gtfs_merge.specs.NearStops.{near_pairs};
ghost use Rattle.gtfs_merge.specs.MergedSides.{content_a, content_b, nearness_of};
ghost use Rattle.gtfs_merge.specs.Twins.{near_at, pairs_at, twin_rows};
ghost use Rattle.gtfs_merge.specs.declared.kind.Kind.TheVariants as kind;

use crate::feed_ids::{count_of, id_of};
use crate::joining::twins::Twins;
use crate::kind::Kind;
use crate::sides::Sides;
use gtfs_field::{OutOfMemory, Text};
use std::alloc::Global;

// The near stops of B with those of A that they are near.
pub(crate) fn near_pairs(
    alloc: Global,
    sides: &Sides,
    twins: &Twins,
) -> Result<Vec<(Text, Text)>, OutOfMemory>
    requires { twins.now ≡ twin_rows sides.now }
    ensures { IfOk result (λ pairs. pairs.items
        ≡ near_pairs (nearness_of sides.now) (content_a sides.now) (content_b sides.now)) }
{
    sides.soundness();
    let mut pairs = Vec::new(alloc);
    for number in 0..count_of(sides.b, Kind::Stop) {
        push_if_near(alloc, sides, twins, number, &mut pairs)?;
    }
    Ok(pairs)
}

// Adds a stop of B with the one of A that it is near, if there is one.
fn push_if_near(
    alloc: Global,
    sides: &Sides,
    twins: &Twins,
    number: usize,
    pairs: &mut Vec<(Text, Text)>,
) -> Result<(), OutOfMemory>
    requires twins { twins.now ≡ twin_rows sides.now }
    requires within { number < length (known_ids kind.Stop sides.now.b.now) }
    ensures { OnOk result (pairs.new.items ≡ pairs.old.items
        ++ pairs_at sides.now (near_at (twin_rows sides.now) number) number) }
{
    match twins.near(number) {
        Some(first) => push_pair(alloc, sides, number, first, pairs),
        None => Ok(()),
    }
}

// Adds a stop of B with one of A.
fn push_pair(
    alloc: Global,
    sides: &Sides,
    number: usize,
    first: usize,
    pairs: &mut Vec<(Text, Text)>,
) -> Result<(), OutOfMemory>
    requires number { number < length (known_ids kind.Stop sides.now.b.now) }
    requires first { first < length (known_ids kind.Stop sides.now.a.now) }
    ensures { OnOk result (pairs.new.items ≡ pairs.old.items
        ++ pairs_at sides.now (Some first) number) }
{
    let own = Text::copy_of(alloc, id_of(sides.b, Kind::Stop, number))?;
    let other = Text::copy_of(alloc, id_of(sides.a, Kind::Stop, first))?;
    pairs.push((own, other))?;
    Ok(())
}
