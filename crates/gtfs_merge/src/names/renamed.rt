ghost use Rattle.std.specs.Prelude.{◌≡◌, ◌<◌, [], IfOk, bytes_eq, length, map, option_map, position, slice_index_or};
ghost use Rattle.gtfs_field.specs.TextOrder.{text_cmp};
ghost use Rattle.gtfs_rows.specs.TransferOrder.{Ascends};
ghost use Rattle.gtfs_merge.specs.FeedIds.{known_ids};
ghost use Rattle.gtfs_merge.specs.Names.{name_or, names_or, new_id, new_ids};
ghost use Rattle.gtfs_merge.specs.Renaming.{renaming};
ghost use Rattle.gtfs_merge.specs.MergedSides.{side_names};
ghost use Rattle.gtfs_merge.specs.Twins.{twin_rows};
ghost use Rattle.gtfs_merge.specs.declared.kind.Side.TheVariants as side;

use crate::feed_ids::{count_of, id_of};
use crate::joining::twins::Twins;
use crate::kind::Kind;
use crate::names::new_ids::{new_id_of_a, new_id_of_b};
use crate::sides::Sides;
use gtfs_feed::Feed;
use gtfs_field::{OutOfMemory, Text};
use std::alloc::Global;
use std::marker::Model;

// The ids of one kind of a feed, by number, each with what it became.
pub(crate) struct Renamed {
    // By their bytes, so that an id is found by halving them.
    ids: Vec<Text>,
    // What the id of each number became, None where it stays.
    names: Vec<Option<String>>,
}

impl Model for Renamed {
    ghost use Rattle.std.specs.Prelude.{◌≡◌, length};
    ghost use Rattle.gtfs_field.specs.TextOrder.{text_cmp};
    ghost use Rattle.gtfs_rows.specs.TransferOrder.{Ascends};
    ghost use Rattle.gtfs_merge.specs.Names.{NewIds, names_or};

    ghost Value = { NewIds };

    ghost view = { λ r. record {
      ids = r.ids.items;
      names = names_or r.ids.items r.names.items;
    } };

    ghost invariant = { λ r. (length r.names.items ≡ length r.ids.items)
        × Ascends text_cmp r.ids.items };
}

// Written out, so that a function that lets names go has one call to prove.
impl Drop for Renamed {
    fn drop(self) {
        let Renamed { ids: _, names: _ } = self;
    }
}

impl Renamed {
    // What the ids of A became.
    pub(crate) fn of_a(
        alloc: Global,
        sides: &Sides,
        twins: &Twins,
        kind: Kind,
    ) -> Result<Renamed, OutOfMemory>
        requires { twins.now ≡ twin_rows sides.now }
        ensures { IfOk result (λ renamed. renamed ≡ new_ids
            (renaming (side_names side.A sides.now) kind)
            (known_ids kind sides.now.a.now)) }
    {
        sides.soundness();
        let ids = ids_of(alloc, sides.a, kind)?;
        let names = names_of_a(alloc, sides, twins, kind)?;
        Ok(Renamed { ids, names })
    }

    // What the ids of B became.
    pub(crate) fn of_b(
        alloc: Global,
        sides: &Sides,
        twins: &Twins,
        kind: Kind,
    ) -> Result<Renamed, OutOfMemory>
        requires { twins.now ≡ twin_rows sides.now }
        ensures { IfOk result (λ renamed. renamed ≡ new_ids
            (renaming (side_names side.B sides.now) kind)
            (known_ids kind sides.now.b.now)) }
    {
        sides.soundness();
        let ids = ids_of(alloc, sides.b, kind)?;
        let names = names_of_b(alloc, sides, twins, kind)?;
        Ok(Renamed { ids, names })
    }

    // The ids, by their bytes.
    pub(crate) fn ids(&self) -> &[Text]
        ensures { result.now ≡ self.now.ids }
    {
        self.ids.as_slice()
    }

    // What the id of a number became.
    pub(crate) fn by_number(&self, number: usize) -> &str
        requires { number < length self.now.ids }
        ensures name { result.now ≡ slice_index_or self.now.names number [] }
        ensures of_id { new_id self.now (slice_index_or self.now.ids number []) ≡ Some result.now }
    {
        name_or(self.ids[number].as_str(), &self.names[number])
    }

    // What an id became, None where it is not there.
    pub(crate) fn name(&self, id: &str) -> Option<&str>
        ensures { option_map (λ s. s.now) result ≡ new_id self.now id.now }
    {
        match number_of(&self.ids, id) {
            Some(number) => Some(self.by_number(number)),
            None => None,
        }
    }
}

// The ids of a kind that a feed has.
fn ids_of(alloc: Global, feed: &Feed, kind: Kind) -> Result<Vec<Text>, OutOfMemory>
    ensures { IfOk result (λ ids. ids.items ≡ known_ids kind feed.now) }
{
    let mut ids = Vec::with_capacity(alloc, count_of(feed, kind))?;
    for number in 0..count_of(feed, kind) {
        ids.push(Text::copy_of(alloc, id_of(feed, kind, number))?)?;
    }
    Ok(ids)
}

// What each id of A became, None where it stays.
fn names_of_a(
    alloc: Global,
    sides: &Sides,
    twins: &Twins,
    kind: Kind,
) -> Result<Vec<Option<String>>, OutOfMemory>
    requires { twins.now ≡ twin_rows sides.now }
    ensures count { IfOk result
        (λ names. length names.items ≡ length (known_ids kind sides.now.a.now)) }
    ensures names { IfOk result (λ names. names_or (known_ids kind sides.now.a.now) names.items
        ≡ map (renaming (side_names side.A sides.now) kind) (known_ids kind sides.now.a.now)) }
{
    sides.soundness();
    let mut names = Vec::with_capacity(alloc, count_of(sides.a, kind))?;
    for number in 0..count_of(sides.a, kind) {
        let id = id_of(sides.a, kind, number);
        names.push(new_id_of_a(alloc, sides, twins, kind, id)?)?;
    }
    Ok(names)
}

// What each id of B became, None where it stays.
fn names_of_b(
    alloc: Global,
    sides: &Sides,
    twins: &Twins,
    kind: Kind,
) -> Result<Vec<Option<String>>, OutOfMemory>
    requires { twins.now ≡ twin_rows sides.now }
    ensures count { IfOk result
        (λ names. length names.items ≡ length (known_ids kind sides.now.b.now)) }
    ensures names { IfOk result (λ names. names_or (known_ids kind sides.now.b.now) names.items
        ≡ map (renaming (side_names side.B sides.now) kind) (known_ids kind sides.now.b.now)) }
{
    sides.soundness();
    let mut names = Vec::with_capacity(alloc, count_of(sides.b, kind))?;
    for number in 0..count_of(sides.b, kind) {
        let id = id_of(sides.b, kind, number);
        let twin = twins.of(kind, number);
        names.push(new_id_of_b(alloc, sides, kind, id, twin)?)?;
    }
    Ok(names)
}

// The number of an id, among ids that ascend.
fn number_of(ids: &[Text], id: &str) -> Option<usize>
    requires { Ascends text_cmp ids.now }
    ensures { result ≡ position (bytes_eq id.now) ids.now }
{
    ids.binary_search_by(|text| text.as_str().cmp(id)).ok()
}

// What an id became, where this is its other text, if it has one.
fn name_or<'a>(id: &'a str, name: &'a Option<String>) -> &'a str
    ensures { result.now ≡ name_or id.now name.now }
{
    match name {
        Some(name) => name.as_str(),
        None => id,
    }
}
