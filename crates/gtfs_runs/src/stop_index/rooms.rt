ghost use Rattle.std.specs.Prelude.{◌≡◌, IfOk, [], length, map};

use crate::departure_row::DepartureRow;
use gtfs_feed::Feed;
use gtfs_field::OutOfMemory;
use std::alloc::Global;

// An empty list for each stop of a feed. Where these are the stops of all stop times, each has room
// for those there, so that none grows.
pub(crate) fn rooms(
    alloc: Global,
    feed: &Feed,
    stops: &[u32],
) -> Result<Vec<Vec<DepartureRow>>, OutOfMemory>
    ensures { IfOk result (λ lists. map (λ x. x.items) lists.items ≡ map (λ _. []) feed.now.stops) }
{
    let counts = counts(alloc, feed, stops)?;
    let mut lists = Vec::with_capacity(alloc, feed.stop_count())?;
    for number in 0..feed.stop_count() {
        lists.push(Vec::with_capacity(alloc, counts[number])?)?;
    }
    Ok(lists)
}

// How often each stop of a feed is among these.
fn counts(alloc: Global, feed: &Feed, stops: &[u32]) -> Result<Vec<usize>, OutOfMemory>
    ensures { IfOk result (λ counts. length counts.items ≡ length feed.now.stops) }
{
    let mut counts: Vec<usize> = vec![in alloc; 0; feed.stop_count()]?;
    for stop in stops {
        if let Some(count) = counts.get_mut(*stop as usize) {
            *count = count.saturating_add(1);
        }
    }
    Ok(counts)
}
