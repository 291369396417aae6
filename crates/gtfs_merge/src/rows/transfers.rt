ghost use Rattle.std.specs.Prelude.{◌≡◌, ◌<◌, ◌++◌, IfOk, IfSome, List, OnOk, length, option_map, slice_index_or};
ghost use Rattle.gtfs_rows.specs.TransferEnds.{transfer_numbers};
ghost use Rattle.gtfs_rows.specs.declared.transfer.Transfer.{Transfer as TransferOf};
ghost use Rattle.gtfs_merge.specs.KindEntries.{AreMergedKinds};
ghost use Rattle.gtfs_merge.specs.Transfers.{AreEntriesOf, IsWithin, merged_transfers, transfer_on, transfers_on};
ghost use Rattle.std.specs.FinMap as table;

use crate::kind::Side;
use crate::numbering::all_kinds::MergedKinds;
use crate::row_numbers::{route_number, stop_number, trip_number};
use crate::sides::Sides;
use gtfs_field::{List as Listed, OutOfMemory};
use gtfs_rows::{RouteNo, StopNo, Transfer, TripNo};
use std::alloc::Global;
use std::collections::BTreeMap;

// The transfers of both feeds by the new numbers of what they name.
// Where both feeds have a key, that of A stays.
pub(crate) fn merged_transfers(
    alloc: Global,
    sides: &Sides,
    kinds: &MergedKinds,
) -> Result<Listed<Transfer>, OutOfMemory>
    requires { AreMergedKinds sides.now kinds.now }
    ensures { IfOk result (λ list. list ≡ merged_transfers sides.now kinds.now) }
{
    let mut by_key = BTreeMap::new(alloc);
    add_new(&mut by_key, sides, kinds, Side::A)?;
    add_new(&mut by_key, sides, kinds, Side::B)?;
    let transfers = by_key.into_values().collect(alloc)?;
    Ok(Listed::new(transfers))
}

// Adds the transfers of a side whose keys are not there.
fn add_new(
    by_key: &mut BTreeMap<[Option<usize>; 6], Transfer>,
    sides: &Sides,
    kinds: &MergedKinds,
    side: Side,
) -> Result<(), OutOfMemory>
    requires { AreMergedKinds sides.now kinds.now }
    ensures { (xs : List TransferOf) → AreEntriesOf xs by_key.old.entries
        → OnOk result (AreEntriesOf (xs ++ transfers_on sides.now kinds.now side)
        by_key.new.entries) }
{
    sides.soundness();
    let transfers = sides.of(side).transfers();
    for own in transfers {
        let transfer = renumbered(own, kinds, side);
        let key = ends(&transfer);
        if !by_key.contains_key(&key) {
            by_key.insert(key, transfer)?;
        }
    }
    Ok(())
}

// The key of a transfer: the numbers of what it names. A part that is not there is the least.
fn ends(transfer: &Transfer) -> [Option<usize>; 6]
    ensures { result ≡ transfer_numbers transfer.now }
{
    [
        stop_number(transfer.from_stop_id),
        stop_number(transfer.to_stop_id),
        route_number(transfer.from_route_id),
        route_number(transfer.to_route_id),
        trip_number(transfer.from_trip_id),
        trip_number(transfer.to_trip_id),
    ]
}

// The transfer of a side with the new numbers of what it names.
fn renumbered(transfer: &Transfer, kinds: &MergedKinds, side: Side) -> Transfer
    requires { IsWithin kinds.now side transfer.now }
    ensures { result ≡ transfer_on kinds.now side transfer.now }
{
    let stops = kinds.stops.numbers(side);
    let routes = kinds.routes.numbers(side);
    let trips = kinds.trips.numbers(side);
    Transfer {
        from_stop_id: new_stop(transfer.from_stop_id, stops),
        to_stop_id: new_stop(transfer.to_stop_id, stops),
        from_route_id: new_route(transfer.from_route_id, routes),
        to_route_id: new_route(transfer.to_route_id, routes),
        from_trip_id: new_trip(transfer.from_trip_id, trips),
        to_trip_id: new_trip(transfer.to_trip_id, trips),
        ..*transfer
    }
}

// The new number of a stop, if there is one.
fn new_stop(stop: Option<StopNo>, stops: &[usize]) -> Option<StopNo>
    requires { IfSome stop (λ n. n.0 < length stops.now) }
    ensures { result ≡ option_map (λ n. record { 0 = slice_index_or stops.now n.0 0 }) stop }
{
    match stop {
        Some(stop) => Some(StopNo(stops[stop.0])),
        None => None,
    }
}

// The new number of a route, if there is one.
fn new_route(route: Option<RouteNo>, routes: &[usize]) -> Option<RouteNo>
    requires { IfSome route (λ n. n.0 < length routes.now) }
    ensures { result ≡ option_map (λ n. record { 0 = slice_index_or routes.now n.0 0 }) route }
{
    match route {
        Some(route) => Some(RouteNo(routes[route.0])),
        None => None,
    }
}

// The new number of a trip, if there is one.
fn new_trip(trip: Option<TripNo>, trips: &[usize]) -> Option<TripNo>
    requires { IfSome trip (λ n. n.0 < length trips.now) }
    ensures { result ≡ option_map (λ n. record { 0 = slice_index_or trips.now n.0 0 }) trip }
{
    match trip {
        Some(trip) => Some(TripNo(trips[trip.0])),
        None => None,
    }
}
