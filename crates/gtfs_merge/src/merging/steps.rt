ghost use Rattle.std.specs.Prelude.{◌≡◌, IfOk, None, false};
ghost use Rattle.std.specs.Cow.{cow_value};
ghost use Rattle.gtfs_rows.specs.RowsInMemory.{content_of_parts};
ghost use Rattle.gtfs_merge.specs.Merged.{zone_texts_differ};
ghost use Rattle.gtfs_merge.specs.Merging.{AreListsOfPair, AreRowsOfMerge};

use crate::joining::twins::Twins;
use crate::names::Names;
use crate::rows::all_lists::MergedLists;
use crate::sides::Sides;
use gtfs_feed::Feed;
use gtfs_field::OutOfMemory;
use gtfs_rows::{Parts, StopTimesByTrip};
use std::alloc::Global;
use std::borrow::Cow;
use std::hash::RandomState;

// The rows of the merged feed of two feeds as they are, and what the ids of both became. Of a feed
// that is given up only the stop times are left once all else is merged.
pub(crate) fn rows_of_pair(
    alloc: Global,
    random: RandomState,
    a: Cow<'_, Feed>,
    b: Cow<'_, Feed>,
    near: Option<u32>,
) -> Result<(Parts, Names), OutOfMemory>
    requires { zone_texts_differ (content_of_parts (cow_value a))
        (content_of_parts (cow_value b)) ≡ false }
    ensures { IfOk result (AreRowsOfMerge near None
        (content_of_parts (cow_value a.entry)) (content_of_parts (cow_value b.entry))) }
{
    let (lists, names) = lists_of_pair(alloc, random, a.as_ref(), b.as_ref(), near)?;
    let first = stop_times_of(alloc, a)?;
    let second = stop_times_of(alloc, b)?;
    let parts = lists.with_stop_times(alloc, first, second)?;
    Ok((parts, names))
}

// All lists of the merged feed but its stop times, and what the ids of both feeds became.
fn lists_of_pair(
    alloc: Global,
    random: RandomState,
    a: &Feed,
    b: &Feed,
    near: Option<u32>,
) -> Result<(MergedLists, Names), OutOfMemory>
    requires { zone_texts_differ (content_of_parts a.now) (content_of_parts b.now) ≡ false }
    ensures { IfOk result (AreListsOfPair near a.now b.now) }
{
    let sides = Sides { a, b, near };
    sides.soundness();
    let twins = Twins::of_feeds(alloc, &sides)?;
    let names = Names::of_twins(alloc, &sides, &twins)?;
    let lists = MergedLists::of_feeds(alloc, random, &sides, &twins, &names)?;
    Ok((lists, names))
}

// The stop times of a feed. One that is given up is let go but for them.
fn stop_times_of(alloc: Global, feed: Cow<'_, Feed>) -> Result<StopTimesByTrip, OutOfMemory>
    ensures { IfOk result
        (λ stop_times. stop_times ≡ (cow_value feed.entry).stop_times) }
{
    match feed {
        Cow::Borrowed(feed) => feed.parts().stop_times.copied(alloc),
        Cow::Owned(feed) => Ok(feed.into_stop_times()),
    }
}
