ghost use Rattle.std.specs.Prelude.{◌≡◌, ◌==◌, ◌<◌, IfOk, false, length, option_map, slice_index_or};
ghost use Rattle.gtfs_schema.specs.FieldValues.{if_there};
ghost use Rattle.gtfs_rows.specs.RowsInMemory.{content_of_parts, stop_ids, text_of_number};
ghost use Rattle.gtfs_rows.specs.Places.{is_in_place, members};

use gtfs_feed::Feed;
use gtfs_field::OutOfMemory;
use gtfs_rows::{Stop, StopNo};
use std::alloc::Global;
use std::marker::Model;

// The place of a stop: the stop, and each stop or platform whose parent it is.
//
// GTFS Schedule Reference, stops.txt, parent_station.
#[derive(Drop)]
pub(crate) struct Place {
    // Whether it has the stop of each number.
    members: Vec<bool>,
}

impl Model for Place {
    ghost use Rattle.std.specs.Prelude.{List, Bool};

    ghost Value = { List Bool };

    ghost view = { λ p. p.members.items };
}

impl Place {
    // The place of a stop of the feed.
    pub(crate) fn of_stop(alloc: Global, feed: &Feed, stop: StopNo) -> Result<Place, OutOfMemory>
        requires { stop.0 < length feed.now.stops }
        ensures { IfOk result (λ place. place
            ≡ members (content_of_parts feed.now) (text_of_number (stop_ids feed.now) stop.0)) }
    {
        let mut members = Vec::with_capacity(alloc, feed.stop_count())?;
        for number in 0..feed.stop_count() {
            members.push(is_in_place(feed, stop, StopNo(number)))?;
        }
        Ok(Place { members })
    }

    // Of each stop of the feed, by its number, whether it has it.
    pub(crate) fn members(&self) -> &[bool]
        ensures { result.now ≡ self.now }
    {
        &self.members
    }

    // Whether it has a stop of the feed.
    pub(crate) fn has(&self, stop: StopNo) -> bool
        requires { stop.0 < length self.now }
        ensures { result ≡ slice_index_or self.now stop.0 false }
    {
        self.members[stop.0]
    }
}

// Whether a stop of the feed is at the place of another.
fn is_in_place(feed: &Feed, place: StopNo, stop: StopNo) -> bool
    requires place { place.0 < length feed.now.stops }
    requires stop { stop.0 < length feed.now.stops }
    ensures { result ≡ is_in_place (content_of_parts feed.now)
        (text_of_number (stop_ids feed.now) place.0) (text_of_number (stop_ids feed.now) stop.0) }
{
    feed.soundness();
    let row = feed.stop_by_number(stop);
    stop.0 == place.0 || row.location_type.number() == 0 && has_parent(row, place)
}

// Whether a stop has this parent.
fn has_parent(row: &Stop, parent: StopNo) -> bool
    ensures { result
        ≡ if_there (option_map (λ n. n.0) row.now.parent_station) (λ n. parent.0 == n) }
{
    row.parent_station
        .is_some_and(|station| parent.0 == station.0)
}
