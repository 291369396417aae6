ghost use Rattle.std.specs.Prelude.{◌≡◌, ◌<◌, ◌+◌, ◌^◌, length};
ghost use Rattle.gtfs_rows.specs.RowsInMemory.{IsSoundParts};
ghost use Rattle.gtfs_merge.specs.Renaming.{ids};
ghost use Rattle.gtfs_merge.specs.MergedSides.{side_parts, content_a, content_b};
ghost use Rattle.gtfs_merge.specs.declared.kind.Kind.{Kind as KindOf};

use crate::kind::Side;
use gtfs_feed::Feed;

// What is merged: both feeds, and up to how many millionths of a degree stops are near, if any are.
#[derive(Clone, Copy)]
pub(crate) struct Sides<'a> {
    pub(crate) a: &'a Feed,
    pub(crate) b: &'a Feed,
    pub(crate) near: Option<u32>,
}

impl<'a> Sides<'a> {
    // The feed of a side.
    pub(crate) fn of(&self, side: Side) -> &'a Feed
        ensures { result.now ≡ side_parts side self.now }
    {
        match side {
            Side::A => self.a,
            Side::B => self.b,
        }
    }

    // What any two feeds in memory keep, for proofs: their rows make feeds, and no kind has more
    // ids than numbers can tell apart. It does nothing.
    pub(crate) fn soundness(&self)
        ensures a { IsSoundParts self.now.a.now }
        ensures b { IsSoundParts self.now.b.now }
        ensures few { (kind : KindOf) → length (ids kind (content_a self.now))
            + length (ids kind (content_b self.now)) < 2 ^ 65 }
    {
        self.a.soundness();
        self.b.soundness();
        let _agencies = (self.a.agency_count(), self.b.agency_count());
        let _stops = (self.a.stop_count(), self.b.stop_count());
        let _routes = (self.a.route_count(), self.b.route_count());
        let _services = (self.a.service_count(), self.b.service_count());
        let _trips = (self.a.trip_count(), self.b.trip_count());
    }
}
