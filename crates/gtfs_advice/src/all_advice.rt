ghost use Rattle.std.specs.Prelude.{◌≡◌, All, IfOk, OnOk, map};
ghost use Rattle.gtfs_rows.specs.RowsInMemory.{content_of_parts};
ghost use Rattle.gtfs_advice.specs.Advice.{IsWithin, Tells, advice, advice_of};

use crate::advice::Advice;
use crate::agencies::tell_agencies;
use crate::days_without_service::tell_days;
use crate::frequencies::tell_frequencies;
use crate::routes::tell_routes;
use crate::services::{tell_calendar, tell_dates};
use crate::stop_times::tell_stop_times;
use crate::stops::tell_stops;
use crate::trips::tell_trips;
use gtfs_feed::Feed;
use gtfs_field::{Day, List, OutOfMemory};
use std::alloc::Global;

/// The advice on a feed: for each file, each of its subjects and each code, in this order, those
/// whose rule holds. Where a day is given, there is to be service from that day on.
///
/// # Errors
/// `OutOfMemory` where memory is refused.
pub fn advise(alloc: Global, feed: &Feed, day: Option<Day>) -> Result<List<Advice>, OutOfMemory>
    ensures told { IfOk result (λ list. map (advice_of feed.now) list
        ≡ advice (content_of_parts feed.now) day) }
    ensures within { IfOk result (All (λ a. IsWithin feed.now a.subject)) }
{
    let mut told = Vec::new(alloc);
    tell_all(alloc, feed, day, &mut told)?;
    Ok(List::new(told))
}

// Tells the advice on a feed, one file after the other.
fn tell_all(
    alloc: Global,
    feed: &Feed,
    day: Option<Day>,
    told: &mut Vec<Advice>,
) -> Result<(), OutOfMemory>
    ensures { OnOk result (Tells feed.now (advice (content_of_parts feed.now) day)
        told.old.items told.new.items) }
{
    tell_agencies(alloc, feed, told)?;
    tell_stops(alloc, feed, told)?;
    tell_routes(alloc, feed, told)?;
    tell_trips(alloc, feed, told)?;
    tell_stop_times(alloc, feed, told)?;
    tell_calendar(alloc, feed, told)?;
    tell_days(alloc, feed, day, told)?;
    tell_dates(alloc, feed, told)?;
    tell_frequencies(feed, told)
}
