ghost use Rattle.std.specs.Prelude.{◌≡◌, ◌&&◌, [], IfOk, None, false, not, string_bytes, true};
ghost use Rattle.gtfs_merge.specs.FeedIds.{known_ids};
ghost use Rattle.gtfs_merge.specs.Names.{is_nameless, name_or};
ghost use Rattle.gtfs_merge.specs.Renaming.{agency_b, lists_id, joined_agency, renaming};
ghost use Rattle.gtfs_merge.specs.MergedSides.{content_a, content_b, side_names, is_joined_id};
ghost use Rattle.gtfs_merge.specs.Twins.{twin_number, twin_rows};
ghost use Rattle.gtfs_merge.specs.declared.kind.Kind.TheVariants as kind;
ghost use Rattle.gtfs_merge.specs.declared.kind.Side.TheVariants as side;

use crate::feed_ids::{has_this_id, id_of};
use crate::joining::twins::Twins;
use crate::kind::Kind;
use crate::names::free_ids::{free_id, numbered_id};
use crate::names::joined_ids::is_joined_id;
use crate::sides::Sides;
use gtfs_field::OutOfMemory;
use std::alloc::Global;

// What an agency without an id is called, before the number.
const AGENCY: &str = "agency";

// Whether it is the empty id of an agency that is not joined.
fn is_left_nameless(sides: &Sides, twins: &Twins, kind: Kind, id: &str) -> bool
    requires { twins.now ≡ twin_rows sides.now }
    ensures { result ≡ (is_nameless kind id.now
        && not (is_joined_id kind sides.now id.now)) }
{
    is_nameless(kind, id) && !is_joined_id(sides, twins, kind, id)
}

// Whether it is the id of an agency that has none.
fn is_nameless(kind: Kind, id: &str) -> bool
    ensures { result ≡ is_nameless kind id.now }
{
    match kind {
        Kind::Agency => id.is_empty(),
        _ => false,
    }
}

// What an id of A becomes, None where it stays:
// only an agency's empty id that is not joined gets another.
pub(crate) fn new_id_of_a(
    alloc: Global,
    sides: &Sides,
    twins: &Twins,
    kind: Kind,
    id: &str,
) -> Result<Option<String>, OutOfMemory>
    requires { twins.now ≡ twin_rows sides.now }
    ensures { IfOk result (λ new. name_or id.now new
        ≡ renaming (side_names side.A sides.now) kind id.now) }
{
    sides.soundness();
    if is_left_nameless(sides, twins, kind, id) {
        return Ok(Some(free_id(alloc, sides, Kind::Agency, AGENCY)?));
    }
    Ok(None)
}

// What an id of B becomes, None where it stays. This is its twin: it gets the id of its twin, and
// else it stays where A lacks it.
pub(crate) fn new_id_of_b(
    alloc: Global,
    sides: &Sides,
    kind: Kind,
    id: &str,
    twin: Option<usize>,
) -> Result<Option<String>, OutOfMemory>
    requires there { lists_id (known_ids kind sides.now.b.now) id.now ≡ true }
    requires twin { twin ≡ twin_number kind sides.now id.now }
    ensures { IfOk result (λ new. name_or id.now new
        ≡ renaming (side_names side.B sides.now) kind id.now) }
{
    match twin {
        Some(first) => other_name(alloc, id, id_of(sides.a, kind, first)),
        None => own_id_of_b(alloc, sides, kind, id),
    }
}

// A name of an id, None where it is the id itself.
fn other_name(alloc: Global, id: &str, name: &str) -> Result<Option<String>, OutOfMemory>
    ensures { IfOk result (λ new. name_or id.now new ≡ name.now) }
{
    if id == name {
        return Ok(None);
    }
    Ok(Some(String::from_str(alloc, name)?))
}

// What an id of B becomes that has no twin, None where it stays.
fn own_id_of_b(
    alloc: Global,
    sides: &Sides,
    kind: Kind,
    id: &str,
) -> Result<Option<String>, OutOfMemory>
    requires there { lists_id (known_ids kind sides.now.b.now) id.now ≡ true }
    requires alone { None ≡ twin_number kind sides.now id.now }
    ensures { IfOk result (λ new. name_or id.now new
        ≡ renaming (side_names side.B sides.now) kind id.now) }
{
    sides.soundness();
    if is_nameless(kind, id) {
        return Ok(Some(new_agency_id_of_b(alloc, sides)?));
    }
    if !has_this_id(sides.a, kind, id) {
        return Ok(None);
    }
    Ok(Some(free_id(alloc, sides, kind, id)?))
}

// What the empty id of B's agency becomes where it is not joined.
fn new_agency_id_of_b(alloc: Global, sides: &Sides) -> Result<String, OutOfMemory>
    requires there { lists_id (known_ids kind.Agency sides.now.b.now) [] ≡ true }
    requires apart { joined_agency (content_a sides.now) (content_b sides.now) [] ≡ false }
    ensures { IfOk result (λ new. string_bytes new
        ≡ agency_b (content_a sides.now) (content_b sides.now) []) }
{
    sides.soundness();
    // An agency without an id is alone in its feed:
    // where A has one, too, that one took the first number.
    if has_this_id(sides.a, Kind::Agency, "") {
        return numbered_id(alloc, AGENCY, 2);
    }
    free_id(alloc, sides, Kind::Agency, AGENCY)
}
