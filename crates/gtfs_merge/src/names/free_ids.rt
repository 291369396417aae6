ghost use Rattle.std.specs.Prelude.{◌≡◌, ◌<◌, ◌+◌, ◌^◌, ◌++◌, IfOk, length, string_bytes};
ghost use Rattle.gtfs_merge.specs.FeedIds.{known_ids};
ghost use Rattle.gtfs_merge.specs.Renaming.{free_id, lists_id, merged_id};

use crate::feed_ids::has_this_id;
use crate::kind::Kind;
use crate::sides::Sides;
use gtfs_field::OutOfMemory;
use itoa::Buffer;
use std::alloc::Global;

// The new id of this number: the old one, `_merged_` and the number.
pub(crate) fn numbered_id(alloc: Global, base: &str, number: u128) -> Result<String, OutOfMemory>
    ensures { IfOk result (λ id. string_bytes id ≡ merged_id base.now number) }
{
    // Room for a number of one digit, which most are.
    let mut id = String::with_capacity(alloc, base.len().saturating_add(9))?;
    id.push_str(base)?;
    id.push_str("_merged_")?;
    id.push_str(Buffer::new().format(number))?;
    Ok(id)
}

// The first new id that neither feed has.
pub(crate) fn free_id(
    alloc: Global,
    sides: &Sides,
    kind: Kind,
    base: &str,
) -> Result<String, OutOfMemory>
    requires { length (known_ids kind sides.now.a.now ++ known_ids kind sides.now.b.now) + 2
        < 2 ^ 128 }
    ensures { IfOk result (λ id. string_bytes id
        ≡ free_id (known_ids kind sides.now.a.now ++ known_ids kind sides.now.b.now) base.now) }
{
    let mut number: u128 = 1;
    loop {
        let id = numbered_id(alloc, base, number)?;
        if !is_taken(sides, kind, id.as_str()) {
            return Ok(id);
        }
        number += 1;
    }
}

// Whether one of the feeds has this id of a kind.
#[tactic(auto, using(crate::proofs::FreeSearch::has_both))]
fn is_taken(sides: &Sides, kind: Kind, id: &str) -> bool
    ensures { result
        ≡ lists_id (known_ids kind sides.now.a.now ++ known_ids kind sides.now.b.now) id.now }
{
    has_this_id(sides.a, kind, id) || has_this_id(sides.b, kind, id)
}
