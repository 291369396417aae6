ghost use Rattle.std.specs.Prelude.{◌≡◌, ◌≤◌, IfErr, IfOk, IfSome, true};
ghost use Rattle.std.specs.Cow.{cow_value};
ghost use Rattle.gtfs_days.specs.Service.{is_service_day};
ghost use Rattle.gtfs_rows.specs.RowsInMemory.{content_of_parts};
ghost use Rattle.gtfs_merge.specs.Merging.{IsMergeOf, IsRefusal, KeepsDepartures};

mod cutoff;
pub(crate) mod fault;
mod file_limit;
pub(crate) mod options;
mod steps;

use crate::merging::cutoff::rows_of;
use crate::merging::fault::MergeFault;
use crate::merging::file_limit::limited;
use crate::merging::options::Options;
use crate::names::Names;
use crate::sides::Sides;
use crate::zones::zones_differ;
use gtfs_feed::Feed;
use std::alloc::Global;
use std::borrow::Cow;
use std::hash::RandomState;

/// Two feeds in one, and what their ids became.
pub struct Merged {
    /// The rows of both feeds under their new ids, those of joined ids and of near stops once,
    /// as the first feed has them.
    pub feed: Feed,
    /// What the ids of both feeds became, and which are joined.
    pub names: Names,
}

// Written out, so that a function that lets it go has one call to prove.
impl Drop for Merged {
    fn drop(self) {
        let Merged { feed: _, names: _ } = self;
    }
}

/// The two feeds in one: the rows of the first and then those of the second, each id and each
/// key once, once the ids of both are what [`Names`] tells. Where both feeds have a transfer
/// of one key, that of the first stays (GTFS Schedule Reference, primary key of
/// `transfers.txt`). With near stops two transfers of a feed may get one key; that with the
/// lesser key in its own feed stays.
///
/// Every departure of both feeds is one of the merged feed, that of a joined trip once, and nothing
/// else is; the board of a stop lists what both feeds list of the stops that became it. With a
/// cutoff the first feed is [trimmed](Feed::trimmed) to the service days before it, and the second
/// to those from it on, before anything is compared. The merged feed passes the validator. Both
/// feeds are lent, and no answer depends on the random state.
///
/// # Errors
/// In this order: `ZoneDiffers` exactly where the zones of the two feeds have different names;
/// `TooLarge` only where the text of some file of the merged feed has more bytes than `file_limit`,
/// and the feed is given only where none has; `OutOfMemory` where memory is refused.
pub fn merge(
    alloc: Global,
    random: RandomState,
    a: &Feed,
    b: &Feed,
    options: &Options,
) -> Result<Merged, MergeFault>
    requires near { IfSome options.now.near (λ n. n ≤ 2_147_483_647) }
    requires cutoff { IfSome options.now.cutoff (λ d. is_service_day d ≡ true) }
    ensures merged { IfOk result (IsMergeOf options.now.near options.now.cutoff
        (content_of_parts a.now) (content_of_parts b.now) options.now.file_limit) }
    ensures refused { IfErr result (IsRefusal options.now.near options.now.cutoff
        (content_of_parts a.now) (content_of_parts b.now) options.now.file_limit) }
    ensures departures { KeepsDepartures options.now.near options.now.cutoff
        (content_of_parts a.now) (content_of_parts b.now) }
{
    let sides = Sides {
        a,
        b,
        near: options.near,
    };
    sides.soundness();
    merge_lent_or_owned(alloc, random, Cow::Borrowed(a), Cow::Borrowed(b), options)
}

/// The same of two feeds that are given up. With a cutoff each is let go as soon as it is trimmed,
/// so that no more memory is held than without one.
///
/// # Errors
/// Those of [`merge`], in the same order.
pub fn merge_owned(
    alloc: Global,
    random: RandomState,
    a: Feed,
    b: Feed,
    options: &Options,
) -> Result<Merged, MergeFault>
    requires near { IfSome options.now.near (λ n. n ≤ 2_147_483_647) }
    requires cutoff { IfSome options.now.cutoff (λ d. is_service_day d ≡ true) }
    ensures merged { IfOk result (IsMergeOf options.now.near options.now.cutoff
        (content_of_parts a) (content_of_parts b) options.now.file_limit) }
    ensures refused { IfErr result (IsRefusal options.now.near options.now.cutoff
        (content_of_parts a) (content_of_parts b) options.now.file_limit) }
    ensures departures { KeepsDepartures options.now.near options.now.cutoff
        (content_of_parts a) (content_of_parts b) }
{
    let sides = Sides {
        a: &a,
        b: &b,
        near: options.near,
    };
    sides.soundness();
    merge_lent_or_owned(alloc, random, Cow::Owned(a), Cow::Owned(b), options)
}

// The merged feed, or why there is none; the zones are judged first.
// The feeds are lent or given up.
fn merge_lent_or_owned(
    alloc: Global,
    random: RandomState,
    a: Cow<'_, Feed>,
    b: Cow<'_, Feed>,
    options: &Options,
) -> Result<Merged, MergeFault>
    requires { IfSome options.now.cutoff (λ d. is_service_day d ≡ true) }
    ensures merged { IfOk result (IsMergeOf options.now.near options.now.cutoff
        (content_of_parts (cow_value a.entry)) (content_of_parts (cow_value b.entry))
        options.now.file_limit) }
    ensures refused { IfErr result (IsRefusal options.now.near options.now.cutoff
        (content_of_parts (cow_value a.entry)) (content_of_parts (cow_value b.entry))
        options.now.file_limit) }
{
    if zones_differ(a.as_ref(), b.as_ref()) {
        return Err(MergeFault::ZoneDiffers);
    }
    let rows = rows_of(alloc, random, a, b, options)?;
    limited(alloc, random, rows, options.file_limit)
}
