ghost use Rattle.std.specs.Prelude.{◌≡◌, IfOk, option_map, position};
ghost use Rattle.gtfs_nearby.specs.NearRows.{is_near_row};

use crate::area::Area;
use crate::listed::{Listed, listed_stops};
use crate::placed_stop::PlacedStop;
use crate::run::Run;
use crate::search::least_of_run;
use crate::tree::{Node, tree_of};
use gtfs_field::OutOfMemory;
use gtfs_rows::{Stop, StopNo};
use std::alloc::Global;
use std::marker::Model;

/// The stops of a feed, by what near stops have in common and by their places.
///
/// However many stops share a name, a search looks at few of them: they stand along a curve, and
/// a tree over it has the place and the least number of ever more of them. A search passes over
/// most parts of the tree or takes them whole.
#[derive(Drop)]
pub struct Nearby<'a> {
    stops: &'a [Stop],
    near: u32,
    listed: Vec<Listed<'a>>,
    tree: Vec<Node>,
}

impl<'a> Model for Nearby<'a> {
    ghost use Rattle.gtfs_nearby.specs.NearRows.{NearStops};
    ghost use Rattle.gtfs_nearby.specs.AreaTree.{IsIndex};

    ghost Value = { NearStops };

    ghost view = { λ n. record { stops = n.stops.now; near = n.near } };

    ghost invariant = { λ n. IsIndex n.stops.now n.listed.items n.tree.items };
}

impl<'a> Nearby<'a> {
    /// A search among these stops, of which those up to `near` millionths of a degree away are
    /// near. It borrows them, and takes 72 bytes for each and less than 3 for its
    /// part of the tree.
    ///
    /// # Errors
    /// `OutOfMemory` where memory ran out.
    pub fn new(alloc: Global, stops: &'a [Stop], near: u32) -> Result<Nearby<'a>, OutOfMemory>
        ensures { IfOk result (λ n. n ≡ record { stops = stops.now; near = near }) }
    {
        let listed = listed_stops(alloc, stops)?;
        let tree = tree_of(alloc, &listed)?;
        Ok(Nearby {
            stops,
            near,
            listed,
            tree,
        })
    }

    /// The least number of a stop that is near the stop `row` of another feed,
    /// None exactly where none is near.
    ///
    /// Near stops have one type and one name, and neither their latitudes nor their longitudes
    /// differ by more than was said (GTFS Schedule Reference, `stops.txt`). A stop without a name
    /// or a coordinate is near none. Where `row` has a parent, `parent` is the stop here that this
    /// parent became, and a near stop has it as its own; if it became none, no stop is near. Where
    /// `row` has no parent, a near stop has none.
    pub fn find(&self, row: &Stop, parent: Option<StopNo>) -> Option<StopNo>
        ensures { option_map (λ n. n.0) result
            ≡ position (is_near_row self.now.near row.now (option_map (λ n. n.0) parent))
            self.now.stops }
    {
        let parent = match row.parent_station {
            Some(_) => Some(parent?),
            None => None,
        };
        let place = PlacedStop::of(row, parent)?;
        let run = Run::of(&self.listed, &place);
        let area = Area::around(&place, u64::from(self.near) * 1000);
        let count = self.stops.len();
        let least = least_of_run(&self.listed, &self.tree, run, &area, count);
        (least < count).then_some(StopNo(least))
    }
}
