//! Where an id stands among those of the trips.
ghost use Rattle.std.specs.Prelude.{◌≡◌, ◌<◌, ℕ, length, nat_lt};
ghost use Rattle.std.specs.Ordering.{is_lt};
ghost use Rattle.gtfs_field.specs.TextOrder.{text_cmp};
ghost use Rattle.gtfs_rows.specs.RowsInMemory.{text_of_number, trip_ids};

use gtfs_feed::Feed;

/// How many trips have an id below this one, byte by byte:
/// the number of the first trip with this id or a greater one.
pub fn trips_below(feed: &Feed, id: &str) -> usize
    ensures { (n : ℕ) → n < length feed.now.trips
        → nat_lt n result ≡ is_lt (text_cmp (text_of_number (trip_ids feed.now) n) id.now) }
{
    feed.soundness();
    let trips = feed.parts().trips.as_slice();
    trips.partition_point(|trip| trip.trip_id.as_str() < id)
}
