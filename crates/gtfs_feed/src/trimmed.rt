ghost use Rattle.std.specs.Prelude.{◌≡◌, IfOk, OnOk, map, true};
ghost use Rattle.gtfs_days.specs.Cut.{cut_day};
ghost use Rattle.gtfs_days.specs.Service.{is_service_day};
ghost use Rattle.gtfs_rows.specs.RowsInMemory.{content_of_parts};
ghost use Rattle.gtfs_rows.specs.TrimmedContent.{trimmed, trimmed_by_number, trimmed_parts};

use crate::copied::copied_rows;
use crate::feed::Feed;
use gtfs_days::Cut;
use gtfs_field::{List, OutOfMemory};
use gtfs_rows::{Parts, ServiceRow, StopTimesByTrip};
use std::alloc::Global;
use std::hash::RandomState;

impl Feed {
    /// The feed on one side of a service day: each service is what
    /// [`Service::trim`](gtfs_days::Service::trim) leaves of it, and all other rows stay, also
    /// those of trips that then never run (GTFS Schedule Reference, `calendar.txt` and
    /// `calendar_dates.txt`). The day itself belongs to the later side.
    ///
    /// This feed is not changed, and the new one lends nothing of it. Rows and headsigns keep their
    /// numbers. The random state is not needed.
    ///
    /// # Errors
    /// `OutOfMemory` where memory is refused.
    pub fn trimmed(&self, alloc: Global, random: RandomState, cut: Cut) -> Result<Feed, OutOfMemory>
        requires { is_service_day (cut_day cut) ≡ true }
        ensures content { IfOk result
            (λ feed. content_of_parts feed ≡ trimmed cut (content_of_parts self.now)) }
        ensures parts { IfOk result (λ feed. feed ≡ trimmed_parts cut self.now) }
    {
        let parts = trimmed_parts(alloc, self.parts(), &cut)?;
        Feed::assemble(alloc, random, parts)
    }
}

// All rows of a feed, with its services trimmed.
fn trimmed_parts(alloc: Global, parts: &Parts, cut: &Cut) -> Result<Parts, OutOfMemory>
    requires { is_service_day (cut_day cut.now) ≡ true }
    ensures { IfOk result (λ trimmed. trimmed ≡ trimmed_parts cut.now parts.now) }
{
    let mut trimmed = no_rows(alloc);
    fill(alloc, parts, cut, &mut trimmed).and(Ok(trimmed))
}

// Parts of which no list is filled yet.
fn no_rows(alloc: Global) -> Parts {
    Parts {
        agencies: List::new(Vec::new(alloc)),
        stops: List::new(Vec::new(alloc)),
        routes: List::new(Vec::new(alloc)),
        services: List::new(Vec::new(alloc)),
        trips: List::new(Vec::new(alloc)),
        transfers: List::new(Vec::new(alloc)),
        stop_times: StopTimesByTrip::new(List::new(Vec::new(alloc)), List::new(Vec::new(alloc))),
        frequencies: List::new(Vec::new(alloc)),
        frequency_starts: List::new(Vec::new(alloc)),
        headsigns: List::new(Vec::new(alloc)),
    }
}

// Fills the lists, which have one owner whichever of them finds no memory.
fn fill(alloc: Global, parts: &Parts, cut: &Cut, trimmed: &mut Parts) -> Result<(), OutOfMemory>
    requires { is_service_day (cut_day cut.now) ≡ true }
    ensures { OnOk result (trimmed.new ≡ trimmed_parts cut.now parts.now) }
{
    trimmed.agencies = copied_rows(alloc, parts.agencies.as_slice())?;
    trimmed.stops = copied_rows(alloc, parts.stops.as_slice())?;
    trimmed.routes = copied_rows(alloc, parts.routes.as_slice())?;
    trimmed.services = trimmed_services(alloc, parts.services.as_slice(), cut)?;
    trimmed.trips = copied_rows(alloc, parts.trips.as_slice())?;
    trimmed.transfers = same(alloc, parts.transfers.as_slice())?;
    trimmed.stop_times = parts.stop_times.copied(alloc)?;
    trimmed.frequencies = same(alloc, parts.frequencies.as_slice())?;
    trimmed.frequency_starts = same(alloc, parts.frequency_starts.as_slice())?;
    trimmed.headsigns = copied_rows(alloc, parts.headsigns.as_slice())?;
    Ok(())
}

// The same small rows once more.
fn same<R: Copy>(alloc: Global, rows: &[R]) -> Result<List<R>, OutOfMemory>
    ensures { IfOk result (λ list. list ≡ rows.now) }
{
    Ok(List::new(Vec::from_slice(alloc, rows)?))
}

// What stays of each service.
fn trimmed_services(
    alloc: Global,
    services: &[ServiceRow],
    cut: &Cut,
) -> Result<List<ServiceRow>, OutOfMemory>
    requires { is_service_day (cut_day cut.now) ≡ true }
    ensures { IfOk result (λ list. list ≡ map (trimmed_by_number cut.now) services.now) }
{
    let mut list = Vec::with_capacity(alloc, services.len())?;
    for service in services {
        list.push(service.trim(alloc, again(cut))?)?;
    }
    Ok(List::new(list))
}

// The same side of the same day.
fn again(cut: &Cut) -> Cut
    ensures { result ≡ cut.now }
{
    match cut {
        Cut::Before(day) => Cut::Before(*day),
        Cut::From(day) => Cut::From(*day),
    }
}
