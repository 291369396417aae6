ghost use Rattle.std.specs.Prelude.{◌≡◌, ◌<◌, ◌^◌, IfOk, length, slice_index_or};
ghost use Rattle.std.specs.List.Sorted.{IsPermutation, IsSorted};
ghost use Rattle.gtfs_runs.specs.steps.TripGroups.{group_cmp, group_of, grouped_cmp, lead_of, trip_group};

use gtfs_feed::Feed;
use gtfs_field::OutOfMemory;
use gtfs_rows::TripNo;
use gtfs_stop_times::small_number;
use std::cmp::Ordering;
use std::marker::Model;

// A trip by its group: its service and its stops.
#[derive(Drop)]
pub(crate) struct GroupedTrip<'a> {
    trip: TripNo,
    // Its first two stops. Trips are compared often, and mostly these decide, so that no list is
    // looked at.
    lead: u64,
    stops: &'a [u32],
    service: u32,
    // The second at which it leaves its first stop.
    start: u32,
}

impl<'a> Model for GroupedTrip<'a> {
    ghost use Rattle.std.specs.Prelude.{◌≡◌, ◌<◌, ◌^◌, slice_index_or};
    ghost use Rattle.gtfs_runs.specs.steps.TripGroups.{GroupedTripValue, lead_of};

    ghost Value = { GroupedTripValue };

    ghost view = { λ g. record {
      trip = g.trip;
      service = g.service;
      stops = g.stops.now;
      start = g.start;
    } };

    ghost invariant = { λ g. (g.lead ≡ lead_of g.stops.now)
        × (slice_index_or g.stops.now 1 0 < 2 ^ 32) };
}

impl<'a> GroupedTrip<'a> {
    // A trip of the feed that leaves its first stop at this second and has these stops.
    pub(crate) fn of(
        feed: &Feed,
        trip: TripNo,
        start: u32,
        stops: &'a [u32],
    ) -> Result<GroupedTrip<'a>, OutOfMemory>
        requires { trip.0 < length feed.now.trips }
        ensures { IfOk result (λ grouped. grouped ≡ record {
          trip = trip;
          service = (trip_group feed.now trip.0).0;
          stops = stops.now;
          start = start;
        }) }
    {
        Ok(GroupedTrip {
            trip,
            lead: lead(stops),
            stops,
            service: small_number(feed.trip_by_number(trip).service_id.0)?,
            start,
        })
    }

    // The trip.
    pub(crate) fn trip(&self) -> TripNo
        ensures { result ≡ self.now.trip }
    {
        self.trip
    }

    // The number of its service.
    pub(crate) fn service(&self) -> u32
        ensures { result ≡ self.now.service }
    {
        self.service
    }

    // The second at which it leaves its first stop.
    pub(crate) fn start(&self) -> u32
        ensures { result ≡ self.now.start }
    {
        self.start
    }
}

// The first two stops as one number that grows with the first, and then with the second: 0 stands
// for one that is not there.
fn lead(stops: &[u32]) -> u64
    ensures value { result ≡ lead_of stops.now }
    ensures second { slice_index_or stops.now 1 0 < 2 ^ 32 }
{
    let first = stops.first().copied().unwrap_or(0);
    let second = stops.get(1).copied().unwrap_or(0);
    (u64::from(first) << 32) + u64::from(second)
}

// The trips by group. Those of a group stand by when they start, and by their numbers.
pub(crate) fn by_group(mut trips: Vec<GroupedTrip<'_>>) -> Vec<GroupedTrip<'_>>
    ensures same { IsPermutation trips.entry.items result.items }
    ensures in_order { IsSorted grouped_cmp result.items }
{
    trips.sort_unstable_by(|a, b| trip_order(a, b));
    trips
}

// By group, by start and by number.
fn trip_order(a: &GroupedTrip<'_>, b: &GroupedTrip<'_>) -> Ordering
    ensures { result ≡ grouped_cmp a.now b.now }
{
    group_order(a, b)
        .then(a.start.cmp(&b.start))
        .then(a.trip.cmp(&b.trip))
}

// Groups compare by service, and then by stops.
pub(crate) fn group_order(a: &GroupedTrip<'_>, b: &GroupedTrip<'_>) -> Ordering
    ensures { result ≡ group_cmp (group_of a.now) (group_of b.now) }
{
    let services = a.service.cmp(&b.service);
    if services.is_ne() {
        return services;
    }
    let leads = a.lead.cmp(&b.lead);
    if leads.is_ne() {
        return leads;
    }
    a.stops.cmp(b.stops)
}
