ghost use Rattle.std.specs.Prelude.{◌≡◌, ◌&&◌};
ghost use Rattle.gtfs_rows.specs.declared.parts.Parts.{Parts};
ghost use Rattle.gtfs_merge.specs.Renaming.{Renaming};
ghost use Rattle.gtfs_merge.specs.SameByNumber.{same_parent_in, same_stop_in};

use crate::comparing::values::{is_same_degrees, is_same_text};
use gtfs_rows::Stop;

// Whether two stops are the same, their ids and their parents apart.
pub(crate) fn is_alike_stop(a: &Stop, b: &Stop) -> bool
    ensures { (p q : Parts) (rename : Renaming) → same_stop_in p q rename a.now b.now
        ≡ (result && same_parent_in p q rename a.now b.now) }
{
    is_same_text(&a.stop_code, &b.stop_code)
        && is_same_text(&a.stop_name, &b.stop_name)
        && is_same_text(&a.tts_stop_name, &b.tts_stop_name)
        && is_same_text(&a.stop_desc, &b.stop_desc)
        && is_same_degrees(a.stop_lat, b.stop_lat)
        && is_same_degrees(a.stop_lon, b.stop_lon)
        && is_same_text(&a.stop_url, &b.stop_url)
        && a.location_type.number() == b.location_type.number()
        && a.wheelchair_boarding.number() == b.wheelchair_boarding.number()
        && is_same_text(&a.platform_code, &b.platform_code)
}
