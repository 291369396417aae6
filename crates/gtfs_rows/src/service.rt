ghost use Rattle.std.specs.Prelude.{◌≡◌, IfOk, true};
ghost use Rattle.gtfs_days.specs.Cut.{cut_day};
ghost use Rattle.gtfs_days.specs.Service.{is_service_day};
ghost use Rattle.gtfs_rows.specs.TrimmedContent.{trimmed_by_number};

use crate::copies::copied;
use gtfs_days::{Cut, Service};
use gtfs_field::{OutOfMemory, Text};
use std::alloc::Global;

/// The rows of `calendar.txt` and `calendar_dates.txt` with one id.
#[derive(Drop)]
pub struct ServiceRow {
    pub service_id: Text,
    /// Its calendar row, if any, and its exceptions by day.
    pub service: Service,
}

impl ServiceRow {
    /// What stays of the service on one side of a service day,
    /// under the same id ([`Service::trim`]).
    ///
    /// # Errors
    /// `OutOfMemory` where the id or the exceptions cannot be copied.
    pub fn trim(&self, alloc: Global, cut: Cut) -> Result<ServiceRow, OutOfMemory>
        requires { is_service_day (cut_day cut) ≡ true }
        ensures { IfOk result (λ row. row ≡ trimmed_by_number cut self.now) }
    {
        let service = self.service.trim(alloc, cut)?;
        Ok(ServiceRow {
            service_id: copied(alloc, &self.service_id)?,
            service,
        })
    }
}
