ghost use Rattle.std.specs.Prelude.{IfErr, IfOk};
ghost use Rattle.gtfs_rows.specs.RowsInMemory.{IsSoundParts, content_of_parts};
ghost use Rattle.gtfs_merge.specs.Merging.{IsFeedOf, IsLimitFault};

use crate::merging::Merged;
use crate::merging::fault::MergeFault;
use crate::names::Names;
use gtfs_feed::Feed;
use gtfs_rows::Parts;
use std::alloc::Global;
use std::hash::RandomState;

// The feed of these rows, unless a file of it is too long.
pub(crate) fn limited(
    alloc: Global,
    random: RandomState,
    rows: (Parts, Names),
    file_limit: u64,
) -> Result<Merged, MergeFault>
    requires { IsSoundParts rows.0 }
    ensures merged { IfOk result (IsFeedOf rows file_limit) }
    ensures refused { IfErr result (IsLimitFault (content_of_parts rows.0) file_limit) }
{
    let (parts, names) = rows;
    let feed = Feed::assemble(alloc, random, parts)?;
    let is_too_large = feed.has_longer_file(alloc, file_limit)?;
    if is_too_large {
        return Err(MergeFault::TooLarge);
    }
    Ok(Merged { feed, names })
}
