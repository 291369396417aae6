ghost use Rattle.std.specs.Prelude.{◌≡◌, IfOk, OnOk};

use crate::copies::copy_if_any;
use crate::row_choices::{LocationType, WheelchairBoarding};
use gtfs_field::{Coord, OutOfMemory, Text};
use gtfs_stop_times::StopNo;
use std::alloc::Global;

/// A row of `stops.txt` (GTFS Schedule Reference, `stops.txt`).
#[derive(Drop)]
pub struct Stop {
    pub stop_id: Text,
    pub stop_code: Option<Text>,
    pub stop_name: Option<Text>,
    pub tts_stop_name: Option<Text>,
    pub stop_desc: Option<Text>,
    pub stop_lat: Option<Coord>,
    pub stop_lon: Option<Coord>,
    pub stop_url: Option<Text>,
    pub location_type: LocationType,
    /// The station of a platform, an entrance or a node; the platform of a boarding area.
    pub parent_station: Option<StopNo>,
    pub wheelchair_boarding: WheelchairBoarding,
    pub platform_code: Option<Text>,
}

impl Stop {
    /// The stop under this id and with this parent, else the same.
    ///
    /// # Errors
    /// `OutOfMemory` where a text cannot be copied.
    pub fn under(
        &self,
        alloc: Global,
        id: &str,
        parent: Option<StopNo>,
    ) -> Result<Stop, OutOfMemory>
        ensures { IfOk result (λ other. other
            ≡ record self.now { stop_id = id.now; parent_station = parent }) }
    {
        let mut other = Stop {
            stop_id: Text::copy_of(alloc, id)?,
            stop_code: None,
            stop_name: None,
            tts_stop_name: None,
            stop_desc: None,
            stop_lat: self.stop_lat,
            stop_lon: self.stop_lon,
            stop_url: None,
            location_type: self.location_type,
            parent_station: parent,
            wheelchair_boarding: self.wheelchair_boarding,
            platform_code: None,
        };
        copy_texts(alloc, self, &mut other)?;
        Ok(other)
    }
}

// Gives a stop all texts of another but its id. It owns nothing that a refusal would let go.
fn copy_texts(alloc: Global, stop: &Stop, other: &mut Stop) -> Result<(), OutOfMemory>
    ensures { OnOk result (other.new ≡ record other.old {
      stop_code = stop.now.stop_code;
      stop_name = stop.now.stop_name;
      tts_stop_name = stop.now.tts_stop_name;
      stop_desc = stop.now.stop_desc;
      stop_url = stop.now.stop_url;
      platform_code = stop.now.platform_code;
    }) }
{
    copy_if_any(alloc, &stop.stop_code, &mut other.stop_code)?;
    copy_if_any(alloc, &stop.stop_name, &mut other.stop_name)?;
    copy_if_any(alloc, &stop.tts_stop_name, &mut other.tts_stop_name)?;
    copy_if_any(alloc, &stop.stop_desc, &mut other.stop_desc)?;
    copy_if_any(alloc, &stop.stop_url, &mut other.stop_url)?;
    copy_if_any(alloc, &stop.platform_code, &mut other.platform_code)?;
    Ok(())
}
