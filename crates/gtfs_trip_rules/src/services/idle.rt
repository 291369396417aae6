ghost use Rattle.std.specs.Prelude.{◌≡◌, IfOk};
ghost use Rattle.gtfs_days.specs.Service.{IsOrdered, NamesEachDayOnce};
ghost use Rattle.gtfs_trip_rules.specs.ServiceCalendars.{is_never_active};

use gtfs_days::{Exception, FIRST_SERVICE_DAY, Service, Week};
use gtfs_field::{Day, OutOfMemory};
use std::alloc::Global;

// Whether a service with this calendar row, if any, and these exceptions runs on no day.
pub(crate) fn is_never_active(
    alloc: Global,
    week: Option<Week>,
    exceptions: &[(Day, Exception)],
) -> Result<bool, OutOfMemory>
    requires ordered { IsOrdered week }
    requires once { NamesEachDayOnce exceptions.now }
    ensures { IfOk result (λ idle. idle
        ≡ is_never_active (record { week = week; exceptions = exceptions.now })) }
{
    let service = Service::new(alloc, week, exceptions)?;
    let first = Day::from_number(FIRST_SERVICE_DAY);
    Ok(service.next_active(first).is_none())
}
