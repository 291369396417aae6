ghost use Rattle.std.specs.Prelude.{◌≡◌, IfOk};

use crate::copies::{copied, copied_if_any};
use gtfs_field::{OutOfMemory, Text};
use std::alloc::Global;

/// A row of `agency.txt` (GTFS Schedule Reference, `agency.txt`).
#[derive(Drop)]
pub struct Agency {
    /// Empty where the only agency of a feed has no id.
    pub agency_id: Text,
    pub agency_name: Text,
    pub agency_url: Text,
    /// The zone of all times of the feed, by its name.
    pub agency_timezone: Text,
    pub agency_lang: Option<Text>,
    pub agency_phone: Option<Text>,
    pub agency_fare_url: Option<Text>,
    pub agency_email: Option<Text>,
}

impl Agency {
    /// The agency under this id, else the same.
    ///
    /// # Errors
    /// `OutOfMemory` where a text cannot be copied.
    pub fn under(&self, alloc: Global, id: &str) -> Result<Agency, OutOfMemory>
        ensures { IfOk result (λ other. other ≡ record self.now { agency_id = id.now }) }
    {
        Ok(Agency {
            agency_id: Text::copy_of(alloc, id)?,
            agency_name: copied(alloc, &self.agency_name)?,
            agency_url: copied(alloc, &self.agency_url)?,
            agency_timezone: copied(alloc, &self.agency_timezone)?,
            agency_lang: copied_if_any(alloc, &self.agency_lang)?,
            agency_phone: copied_if_any(alloc, &self.agency_phone)?,
            agency_fare_url: copied_if_any(alloc, &self.agency_fare_url)?,
            agency_email: copied_if_any(alloc, &self.agency_email)?,
        })
    }
}
