ghost use Rattle.std.specs.Prelude.{◌≡◌, IfOk, IfSome, Some, false, true};
ghost use Rattle.std.specs.Cow.{cow_value};
ghost use Rattle.gtfs_days.specs.Cut.{cut_day};
ghost use Rattle.gtfs_days.specs.Service.{is_service_day};
ghost use Rattle.gtfs_rows.specs.TrimmedContent.{trimmed};
ghost use Rattle.gtfs_rows.specs.RowsInMemory.{content_of_parts};
ghost use Rattle.gtfs_merge.specs.Merged.{zone_texts_differ};
ghost use Rattle.gtfs_merge.specs.Merging.{AreRowsOfMerge};

use crate::merging::options::Options;
use crate::merging::steps::rows_of_pair;
use crate::names::Names;
use gtfs_days::Cut;
use gtfs_feed::Feed;
use gtfs_field::{Day, OutOfMemory};
use gtfs_rows::Parts;
use std::alloc::Global;
use std::borrow::Cow;
use std::hash::RandomState;

// The rows of the merged feed, and what the ids of both feeds became.
pub(crate) fn rows_of(
    alloc: Global,
    random: RandomState,
    a: Cow<'_, Feed>,
    b: Cow<'_, Feed>,
    options: &Options,
) -> Result<(Parts, Names), OutOfMemory>
    requires zone { zone_texts_differ (content_of_parts (cow_value a))
        (content_of_parts (cow_value b)) ≡ false }
    requires cutoff { IfSome options.now.cutoff (λ d. is_service_day d ≡ true) }
    ensures { IfOk result (AreRowsOfMerge options.now.near options.now.cutoff
        (content_of_parts (cow_value a.entry)) (content_of_parts (cow_value b.entry))) }
{
    match options.cutoff {
        Some(day) => rows_cut_at(alloc, random, a, b, day, options.near),
        None => rows_of_pair(alloc, random, a, b, options.near),
    }
}

// The same of the first feed before a day and of the second one from it on. A feed that is given up
// is let go before more is made of the other one.
fn rows_cut_at(
    alloc: Global,
    random: RandomState,
    a: Cow<'_, Feed>,
    b: Cow<'_, Feed>,
    day: Day,
    near: Option<u32>,
) -> Result<(Parts, Names), OutOfMemory>
    requires zone { zone_texts_differ (content_of_parts (cow_value a))
        (content_of_parts (cow_value b)) ≡ false }
    requires day { is_service_day day ≡ true }
    ensures { IfOk result (AreRowsOfMerge near (Some day)
        (content_of_parts (cow_value a.entry)) (content_of_parts (cow_value b.entry))) }
{
    let first = trimmed(alloc, random, a, Cut::Before(day))?;
    let second = trimmed(alloc, random, b, Cut::From(day))?;
    rows_of_pair(alloc, random, Cow::Owned(first), Cow::Owned(second), near)
}

// What is left of a feed. If it is given up, it is let go.
fn trimmed(
    alloc: Global,
    random: RandomState,
    feed: Cow<'_, Feed>,
    cut: Cut,
) -> Result<Feed, OutOfMemory>
    requires { is_service_day (cut_day cut) ≡ true }
    ensures { IfOk result (λ left.
        content_of_parts left ≡ trimmed cut (content_of_parts (cow_value feed.entry))) }
{
    left_of(alloc, random, feed.as_ref(), cut)
}

// What is left of a feed that is lent.
fn left_of(alloc: Global, random: RandomState, feed: &Feed, cut: Cut) -> Result<Feed, OutOfMemory>
    requires { is_service_day (cut_day cut) ≡ true }
    ensures { IfOk result
        (λ left. content_of_parts left ≡ trimmed cut (content_of_parts feed.now)) }
{
    feed.trimmed(alloc, random, cut)
}
