ghost use Rattle.std.specs.Prelude.{◌≡◌, ◌&&◌, List};
ghost use Rattle.gtfs_rows.specs.declared.frequency.Frequency.{Frequency as FrequencyOf};
ghost use Rattle.gtfs_stop_times.specs.declared.stop_row.StopRow.{StopRow as StopRowOf};
ghost use Rattle.gtfs_rows.specs.declared.parts.Parts.{Parts};
ghost use Rattle.gtfs_merge.specs.Renaming.{Renaming};
ghost use Rattle.gtfs_merge.specs.SameByNumber.{same_frequencies_in, same_route_id_in, same_service_id_in, same_stop_rows_in, same_trip_in};

use crate::comparing::values::{is_same_number, is_same_text};
use gtfs_rows::{Direction, Trip};

// Whether two trips are the same, their ids, their stop times and their frequencies apart, where
// `route` and `service` tell whether their routes and their services are.
pub(crate) fn is_same_trip(a: &Trip, b: &Trip, route: bool, service: bool) -> bool
    ensures { (p q : Parts) (rename_route rename_service rename_stop : Renaming)
        (xs ys : List StopRowOf) (us vs : List FrequencyOf)
        → same_route_id_in p q rename_route a.now b.now ≡ route
        → same_service_id_in p q rename_service a.now b.now ≡ service
        → same_trip_in p q rename_route rename_service rename_stop a.now xs us b.now ys vs
        ≡ (result && same_stop_rows_in p q rename_stop xs ys && same_frequencies_in us vs) }
{
    route
        && service
        && is_same_text(&a.trip_headsign, &b.trip_headsign)
        && is_same_text(&a.trip_short_name, &b.trip_short_name)
        && is_same_number(
            a.direction_id.map(Direction::number),
            b.direction_id.map(Direction::number),
        )
        && a.wheelchair_accessible.number() == b.wheelchair_accessible.number()
        && a.bikes_allowed.number() == b.bikes_allowed.number()
}
