ghost use Rattle.std.specs.Prelude.{◌≡◌, ◌<◌, [], IfOk, Some, length, option_map, slice_index_or};
ghost use Rattle.gtfs_merge.specs.Merging.{AreNamesOf};
ghost use Rattle.gtfs_merge.specs.Names.{AreKindNames, ArePairedNames, in_kind, kind_names, new_id, of_side};
ghost use Rattle.gtfs_merge.specs.MergedSides.{content_a, content_b};
ghost use Rattle.gtfs_merge.specs.Twins.{twin_rows};

mod free_ids;
mod joined_ids;
mod near_pairs;
mod new_ids;
mod renamed;

use crate::joining::twins::Twins;
use crate::kind::{Kind, Side};
use crate::names::joined_ids::joined_ids;
use crate::names::near_pairs::near_pairs;
use crate::names::renamed::Renamed;
use crate::sides::Sides;
use gtfs_field::{OutOfMemory, Text};
use std::alloc::Global;
use std::marker::Model;

/// What the ids of two feeds become when the feeds are merged, and which of them are joined.
///
/// An id of the first feed stays. An id of the second one stays, too, where the first feed has no
/// such id, or where both have the same row under it: such an id is joined. Every other id `x` of
/// the second feed becomes `x_merged_n`, with the least `n` from 1 for which neither feed has that
/// id. An agency's empty id that is not joined becomes `agency_merged_n` in either feed. With near
/// stops ([`Options::near`](crate::Options::near)) a stop of the second feed that is not joined and
/// lies near stops of the first one gets the least id of these.
pub struct Names {
    agencies: KindNames,
    stops: KindNames,
    routes: KindNames,
    services: KindNames,
    trips: KindNames,
    near: Vec<(Text, Text)>,
}

impl Model for Names {
    ghost use Rattle.gtfs_merge.specs.Names.{AllNames};

    ghost Value = { AllNames };

    ghost view = { λ n. record {
      agencies = n.agencies;
      stops = n.stops;
      routes = n.routes;
      services = n.services;
      trips = n.trips;
      near = n.near.items;
    } };
}

// Written out, so that a function that lets names go has one call to prove.
impl Drop for Names {
    fn drop(self) {
        let Names {
            agencies: _,
            stops: _,
            routes: _,
            services: _,
            trips: _,
            near: _,
        } = self;
    }
}

impl Names {
    // What the ids of two feeds become where these are the twins of B's rows.
    pub(crate) fn of_twins(
        alloc: Global,
        sides: &Sides,
        twins: &Twins,
    ) -> Result<Names, OutOfMemory>
        requires { twins.now ≡ twin_rows sides.now }
        ensures kinds { IfOk result (AreKindNames sides.now) }
        ensures names { IfOk result
            (AreNamesOf sides.now.near (content_a sides.now) (content_b sides.now)) }
    {
        sides.soundness();
        Names::of_kinds(alloc, sides, twins)
    }

    // The names of each kind, and the near stops.
    fn of_kinds(alloc: Global, sides: &Sides, twins: &Twins) -> Result<Names, OutOfMemory>
        requires { twins.now ≡ twin_rows sides.now }
        ensures { IfOk result (ArePairedNames sides.now) }
    {
        let agencies = KindNames::of_feeds(alloc, sides, twins, Kind::Agency)?;
        let stops = KindNames::of_feeds(alloc, sides, twins, Kind::Stop)?;
        let routes = KindNames::of_feeds(alloc, sides, twins, Kind::Route)?;
        let services = KindNames::of_feeds(alloc, sides, twins, Kind::Service)?;
        let trips = KindNames::of_feeds(alloc, sides, twins, Kind::Trip)?;
        let near = near_pairs(alloc, sides, twins)?;
        Ok(Names {
            agencies,
            stops,
            routes,
            services,
            trips,
            near,
        })
    }

    /// What an id of a feed became, and None exactly where the feed has no such id.
    pub fn of(&self, side: Side, kind: Kind, id: &str) -> Option<&str>
        ensures { option_map (λ s. s.now) result
            ≡ new_id (of_side (in_kind self.now kind) side) id.now }
    {
        let names = self.kind(kind);
        match side {
            Side::A => names.a.name(id),
            Side::B => names.b.name(id),
        }
    }

    /// The ids of a kind that a feed has, by their bytes.
    pub fn ids(&self, side: Side, kind: Kind) -> &[Text]
        ensures { result.now ≡ (of_side (in_kind self.now kind) side).ids }
    {
        self.kind(kind).ids(side)
    }

    /// The joined ids of a kind, by their bytes.
    pub fn joined(&self, kind: Kind) -> &[Text]
        ensures { result.now ≡ (in_kind self.now kind).joined }
    {
        self.kind(kind).joined.as_slice()
    }

    /// The stops of the second feed that are near a stop of the first one and not joined,
    /// each with that one, by their own ids. Both are one stop of the merged feed, with the
    /// id and the row of the first feed.
    pub fn near(&self) -> &[(Text, Text)]
        ensures { result.now ≡ self.now.near }
    {
        self.near.as_slice()
    }

    /// What the id of a number among [`Names::ids`] became: what [`Names::of`] answers of that id,
    /// without a search for it. The number is below how many they are.
    pub fn by_number(&self, side: Side, kind: Kind, number: usize) -> &str
        requires { number < length (of_side (in_kind self.now kind) side).ids }
        ensures name { result.now
            ≡ slice_index_or (of_side (in_kind self.now kind) side).names number [] }
        ensures of_id { new_id (of_side (in_kind self.now kind) side)
            (slice_index_or (of_side (in_kind self.now kind) side).ids number [])
            ≡ Some result.now }
    {
        let names = self.kind(kind);
        match side {
            Side::A => names.a.by_number(number),
            Side::B => names.b.by_number(number),
        }
    }

    // The names of a kind.
    fn kind(&self, kind: Kind) -> &KindNames
        ensures { result.now ≡ in_kind self.now kind }
    {
        match kind {
            Kind::Agency => &self.agencies,
            Kind::Stop => &self.stops,
            Kind::Route => &self.routes,
            Kind::Service => &self.services,
            Kind::Trip => &self.trips,
        }
    }
}

// The names of one kind.
struct KindNames {
    a: Renamed,
    b: Renamed,
    joined: Vec<Text>,
}

impl Model for KindNames {
    ghost use Rattle.gtfs_merge.specs.Names.{NamesOfKind};

    ghost Value = { NamesOfKind };

    ghost view = { λ n. record {
      a = n.a;
      b = n.b;
      joined = n.joined.items;
    } };
}

impl Drop for KindNames {
    fn drop(self) {
        let KindNames {
            a: _,
            b: _,
            joined: _,
        } = self;
    }
}

impl KindNames {
    // What the ids of a kind become.
    fn of_feeds(
        alloc: Global,
        sides: &Sides,
        twins: &Twins,
        kind: Kind,
    ) -> Result<KindNames, OutOfMemory>
        requires { twins.now ≡ twin_rows sides.now }
        ensures { IfOk result (λ names. names ≡ kind_names kind sides.now) }
    {
        let a = Renamed::of_a(alloc, sides, twins, kind)?;
        let b = Renamed::of_b(alloc, sides, twins, kind)?;
        let joined = joined_ids(alloc, sides, twins, kind)?;
        Ok(KindNames { a, b, joined })
    }

    // The ids that a feed has.
    fn ids(&self, side: Side) -> &[Text]
        ensures { result.now ≡ (of_side self.now side).ids }
    {
        match side {
            Side::A => self.a.ids(),
            Side::B => self.b.ids(),
        }
    }
}
