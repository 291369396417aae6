ghost use Rattle.std.specs.Prelude.{◌≡◌, ◌<◌, ◌∷◌, ◌++◌, [], IfOk, OnOk, filter, length, slice_index_or};
ghost use Rattle.gtfs_merge.specs.FeedIds.{known_ids};
ghost use Rattle.gtfs_merge.specs.Renaming.{joined_ids};
ghost use Rattle.gtfs_merge.specs.MergedSides.{content_a, content_b, nearness_of, is_joined_id};
ghost use Rattle.gtfs_merge.specs.Twins.{twin_rows};

use crate::feed_ids::{count_of, id_of, number_of};
use crate::joining::twins::Twins;
use crate::kind::Kind;
use crate::sides::Sides;
use gtfs_field::{OutOfMemory, Text};
use std::alloc::Global;

// The joined ids of a kind. They stand in both feeds, and in the same order.
pub(crate) fn joined_ids(
    alloc: Global,
    sides: &Sides,
    twins: &Twins,
    kind: Kind,
) -> Result<Vec<Text>, OutOfMemory>
    requires { twins.now ≡ twin_rows sides.now }
    ensures { IfOk result (λ found. found.items
        ≡ joined_ids (nearness_of sides.now) kind (content_a sides.now) (content_b sides.now)) }
{
    sides.soundness();
    let mut found = Vec::new(alloc);
    for number in 0..count_of(sides.b, kind) {
        push_if_joined(alloc, sides, twins, kind, number, &mut found)?;
    }
    Ok(found)
}

// Adds the id of a number of B if it is joined.
fn push_if_joined(
    alloc: Global,
    sides: &Sides,
    twins: &Twins,
    kind: Kind,
    number: usize,
    found: &mut Vec<Text>,
) -> Result<(), OutOfMemory>
    requires twins { twins.now ≡ twin_rows sides.now }
    requires within { number < length (known_ids kind sides.now.b.now) }
    ensures { OnOk result (found.new.items ≡ found.old.items
        ++ filter (is_joined_id kind sides.now)
        (slice_index_or (known_ids kind sides.now.b.now) number [] ∷ [])) }
{
    if is_joined_row(sides, twins, kind, number) {
        found.push(Text::copy_of(alloc, id_of(sides.b, kind, number))?)?;
    }
    Ok(())
}

// Whether the id of a number of B is joined.
pub(crate) fn is_joined_row(sides: &Sides, twins: &Twins, kind: Kind, number: usize) -> bool
    requires twins { twins.now ≡ twin_rows sides.now }
    requires within { number < length (known_ids kind sides.now.b.now) }
    ensures { result ≡ is_joined_id kind sides.now
        (slice_index_or (known_ids kind sides.now.b.now) number []) }
{
    sides.soundness();
    twins.joined(kind, number)
}

// Whether an id is joined.
pub(crate) fn is_joined_id(sides: &Sides, twins: &Twins, kind: Kind, id: &str) -> bool
    requires { twins.now ≡ twin_rows sides.now }
    ensures { result ≡ is_joined_id kind sides.now id.now }
{
    sides.soundness();
    match number_of(sides.b, kind, id) {
        Some(number) => is_joined_row(sides, twins, kind, number),
        None => false,
    }
}
