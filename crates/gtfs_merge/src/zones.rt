ghost use Rattle.std.specs.Prelude.{◌≡◌};
ghost use Rattle.gtfs_rows.specs.RowsInMemory.{content_of_parts};
ghost use Rattle.gtfs_merge.specs.Merged.{zone_texts_differ};

use gtfs_feed::Feed;
use gtfs_rows::AgencyNo;

/// Whether the times of two feeds are in zones of different names, so that they cannot be merged.
///
/// All agencies of a feed have one zone (GTFS Schedule Reference, `agency_timezone`).
pub fn zones_differ(a: &Feed, b: &Feed) -> bool
    ensures { result ≡ zone_texts_differ (content_of_parts a.now) (content_of_parts b.now) }
{
    a.soundness();
    b.soundness();
    let first = a.agency_by_number(AgencyNo(0));
    let second = b.agency_by_number(AgencyNo(0));
    first.agency_timezone.as_str() != second.agency_timezone.as_str()
}
