//! The ids of stops, near each other in memory.
ghost use Rattle.std.specs.Prelude.{◌≡◌, ◌<◌, IfOk, length, map};
ghost use Rattle.std.specs.List.{list_all};
ghost use Rattle.gtfs_rows.specs.RowsInMemory.{text_of_number};
ghost use Rattle.gtfs_writing.specs.PlainStops.{AreIdsOf, is_plain_stop};

use crate::quoting::is_quoted;
use gtfs_field::{OutOfMemory, Text};
use gtfs_rows::{Stop, StopNo};
use std::alloc::Global;

// The ids of a feed's stops by their numbers. A stop has ten times the bytes of its id, and each
// stop time asks for an id: copies of the ids stay in the processor's caches, and the stops do not.
#[derive(Drop)]
pub(crate) struct StopIds {
    pub(crate) ids: Vec<Text>,
    // Whether no id needs quotes, as in most feeds.
    pub(crate) are_plain: bool,
}

impl StopIds {
    pub(crate) fn of(alloc: Global, stops: &[Stop]) -> Result<StopIds, OutOfMemory>
        ensures { IfOk result (AreIdsOf stops.now) }
    {
        let ids = copied(alloc, stops)?;
        let are_plain = are_plain(stops);
        Ok(StopIds { ids, are_plain })
    }

    // The id of a stop.
    #[inline(always)]
    pub(crate) fn id(&self, stop: StopNo) -> &str
        requires { stop.0 < length self.now.ids.items }
        ensures { result.now ≡ text_of_number self.now.ids.items stop.0 }
    {
        self.ids[stop.0].as_str()
    }
}

// Copies of the ids.
fn copied(alloc: Global, stops: &[Stop]) -> Result<Vec<Text>, OutOfMemory>
    ensures { IfOk result (λ ids. ids.items ≡ map (λ s. s.stop_id) stops.now) }
{
    let mut ids = Vec::with_capacity(alloc, stops.len())?;
    for stop in stops {
        ids.push(Text::copy_of(alloc, stop.stop_id.as_str())?)?;
    }
    Ok(ids)
}

// Whether no stop's id needs quotes.
fn are_plain(stops: &[Stop]) -> bool
    ensures { result ≡ list_all is_plain_stop stops.now }
{
    stops.iter().all(|stop| !is_quoted(stop.stop_id.as_str()))
}
