ghost use Rattle.std.specs.Prelude.{◌≡◌, IfOk};
ghost use Rattle.std.specs.List.Sorted.{IsPermutation, IsSorted};
ghost use Rattle.gtfs_nearby.specs.AreaTree.{AreListed, AreStillListed, listed_cmp};

use crate::placed_stop::{PlacedStop, group_order};
use gtfs_field::OutOfMemory;
use gtfs_rows::Stop;
use std::alloc::Global;
use std::cmp::Ordering;

// A stop by its number, with its place.
#[derive(Clone, Copy)]
pub(crate) struct Listed<'a> {
    pub place: PlacedStop<'a>,
    // Rises along a curve on which neighbours mostly stand together: the bits of the ranks by
    // latitude and by longitude, in turn. With ranks in place of coordinates, the edge of an area
    // runs through few leaves wherever stops lie: of n, about as many as the root of n at most.
    // This makes searches fast, and no answer depends on it.
    pub order: u64,
    pub number: usize,
}

// The stops that have a name and both coordinates, by name, type and parent.
pub(crate) fn listed_stops<'a>(
    alloc: Global,
    stops: &'a [Stop],
) -> Result<Vec<Listed<'a>>, OutOfMemory>
    ensures all { IfOk result (λ listed. AreListed stops.now listed.items) }
    ensures in_order { IfOk result (λ listed. IsSorted listed_cmp listed.items) }
{
    let listed = by_number(alloc, stops)?;
    Ok(in_order(ranked_by_lon(ranked_by_lat(listed))))
}

// The same, by their numbers.
fn by_number<'a>(alloc: Global, stops: &'a [Stop]) -> Result<Vec<Listed<'a>>, OutOfMemory>
    ensures { IfOk result (λ listed. AreListed stops.now listed.items) }
{
    let mut listed = Vec::with_capacity(alloc, stops.len())?;
    for (number, stop) in stops.iter().enumerate() {
        if let Some(place) = PlacedStop::of(stop, stop.parent_station) {
            listed.push(Listed {
                place,
                order: 0,
                number,
            })?;
        }
    }
    Ok(listed)
}

// The same by latitude, with the bits of these ranks at every second place of the orders.
fn ranked_by_lat(mut listed: Vec<Listed<'_>>) -> Vec<Listed<'_>>
    ensures { AreStillListed listed.entry.items result.items }
{
    listed.sort_unstable_by(|a, b| by_lat(&a.place, &b.place));
    for rank in 0..listed.len() {
        listed[rank].order = spread(rank as u64) << 1;
    }
    listed
}

// The same by longitude, with the bits of these ranks in between.
fn ranked_by_lon(mut listed: Vec<Listed<'_>>) -> Vec<Listed<'_>>
    ensures { AreStillListed listed.entry.items result.items }
{
    listed.sort_unstable_by(|a, b| by_lon(&a.place, &b.place));
    for rank in 0..listed.len() {
        listed[rank].order |= spread(rank as u64);
    }
    listed
}

// Places on one latitude by longitude: the ranks of a line of stops rise together.
fn by_lat(a: &PlacedStop<'_>, b: &PlacedStop<'_>) -> Ordering {
    a.lat.cmp(&b.lat).then(a.lon.cmp(&b.lon))
}

fn by_lon(a: &PlacedStop<'_>, b: &PlacedStop<'_>) -> Ordering {
    a.lon.cmp(&b.lon).then(a.lat.cmp(&b.lat))
}

fn in_order(mut listed: Vec<Listed<'_>>) -> Vec<Listed<'_>>
    ensures same { IsPermutation listed.entry.items result.items }
    ensures in_order { IsSorted listed_cmp result.items }
{
    listed.sort_unstable_by(|a, b| order(a, b));
    listed
}

fn order(a: &Listed<'_>, b: &Listed<'_>) -> Ordering
    ensures { result ≡ listed_cmp a.now b.now }
{
    group_order(&a.place, &b.place).then(a.order.cmp(&b.order))
}

// The lowest 32 bits of a number, each at twice its place.
fn spread(bits: u64) -> u64 {
    let bits = bits & 0xffff_ffff;
    let bits = (bits | (bits << 16)) & 0x0000_ffff_0000_ffff;
    let bits = (bits | (bits << 8)) & 0x00ff_00ff_00ff_00ff;
    let bits = (bits | (bits << 4)) & 0x0f0f_0f0f_0f0f_0f0f;
    let bits = (bits | (bits << 2)) & 0x3333_3333_3333_3333;
    (bits | (bits << 1)) & 0x5555_5555_5555_5555
}
