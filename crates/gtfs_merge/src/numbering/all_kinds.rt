ghost use Rattle.std.specs.Prelude.{◌≡◌, IfOk};
ghost use Rattle.gtfs_merge.specs.KindEntries.{AreMergedKinds};
ghost use Rattle.gtfs_merge.specs.Names.{AreKindNames};
ghost use Rattle.gtfs_merge.specs.Twins.{twin_rows};

use crate::joining::twins::Twins;
use crate::kind::Kind;
use crate::names::Names;
use crate::numbering::new_numbers::Numbers;
use crate::numbering::one_kind::KindRows;
use crate::sides::Sides;
use gtfs_field::OutOfMemory;
use std::alloc::Global;
use std::marker::Model;

// The merged rows of all kinds of ids.
pub(crate) struct MergedKinds<'a> {
    pub(crate) agencies: KindRows<'a>,
    pub(crate) stops: KindRows<'a>,
    pub(crate) routes: KindRows<'a>,
    pub(crate) services: KindRows<'a>,
    pub(crate) trips: KindRows<'a>,
}

impl<'a> Model for MergedKinds<'a> {
    ghost use Rattle.gtfs_merge.specs.KindEntries.{AllEntries};

    ghost Value = { AllEntries };

    ghost view = { λ m. record {
      agencies = m.agencies;
      stops = m.stops;
      routes = m.routes;
      services = m.services;
      trips = m.trips;
    } };
}

// Written out, so that a function that lets rows go has one call to prove.
impl Drop for MergedKinds<'_> {
    fn drop(self) {
        let MergedKinds {
            agencies: _,
            stops: _,
            routes: _,
            services: _,
            trips: _,
        } = self;
    }
}

impl<'a> MergedKinds<'a> {
    // The merged rows of two feeds.
    pub(crate) fn of_feeds(
        alloc: Global,
        sides: &Sides,
        twins: &Twins,
        names: &'a Names,
    ) -> Result<MergedKinds<'a>, OutOfMemory>
        requires twins { twins.now ≡ twin_rows sides.now }
        requires names { AreKindNames sides.now names.now }
        ensures { IfOk result (AreMergedKinds sides.now) }
    {
        let agencies = KindRows::of_feeds(alloc, sides, twins, names, Kind::Agency)?;
        let stops = KindRows::of_feeds(alloc, sides, twins, names, Kind::Stop)?;
        let routes = KindRows::of_feeds(alloc, sides, twins, names, Kind::Route)?;
        let services = KindRows::of_feeds(alloc, sides, twins, names, Kind::Service)?;
        let trips = KindRows::of_feeds(alloc, sides, twins, names, Kind::Trip)?;
        Ok(MergedKinds {
            agencies,
            stops,
            routes,
            services,
            trips,
        })
    }

    // The new numbers of stops, for which all else is let go.
    pub(crate) fn into_stop_numbers(self) -> Numbers
        ensures { result ≡ self.entry.stops.numbers }
    {
        let MergedKinds {
            agencies: _,
            stops,
            routes: _,
            services: _,
            trips: _,
        } = self;
        stops.into_numbers()
    }
}
