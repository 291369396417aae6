ghost use Rattle.std.specs.Prelude.{ℕ, Option};
ghost use Rattle.gtfs_times.specs.declared.times.Times.{Times};
ghost use Rattle.gtfs_days.specs.declared.cut.Cut.{Cut as CutOf};
ghost use Rattle.gtfs_rows.specs.Content.{Content};
ghost use Rattle.gtfs_merge.specs.Cutoff.{DepartsInPart};
ghost use Rattle.gtfs_merge.specs.DeparturesOfBoth.{HasBoards, HasUnion};
ghost use Rattle.gtfs_merge.specs.MergedDepartures.{ForSound, IsNearness, IsSoundMerged, SharesExactly};
ghost use Rattle.gtfs_merge.specs.NearStops.{nearness};

/// The law of merging, which its contract states for any two sound feeds.
/// It does nothing when it runs.
///
/// The departures of the merged feed are those of both feeds, each trip under its new name; one of
/// them is in both exactly where its trip is joined. A board of the merged feed lists what both
/// feeds list of the stops that became its stop. All of this holds with times as they are given
/// and with times that are filled.
/// Where the zones of both feeds are the same text, the merged content makes a feed again. The law
/// holds of any test of nearness that reads a stop of the second feed by its renamed parent and
/// gives it to stops of its type and parent alone, and that of each distance is one.
pub fn merges_keep_departures()
    ensures union { (times : Times) → ForSound (HasUnion times) }
    ensures shares { (times : Times) → ForSound (SharesExactly times) }
    ensures boards { (times : Times) → ForSound (HasBoards times) }
    ensures sound { ForSound IsSoundMerged }
    ensures nearness { (near : Option ℕ) → IsNearness (nearness near) }
{}

/// The law of feeds that are trimmed, which its contract states. It does nothing when it runs.
///
/// A feed on one side of a service day departs as the whole feed does on the service days of
/// that side, and on no other, at the place of each stop too. A departure after midnight
/// belongs to the service day before.
pub fn cuts_keep_departures()
    ensures { (cut : CutOf) (f : Content) → DepartsInPart cut f }
{}
