//! The walk over the days on which services run.
//!
//! It goes from one day with service to the next along one service, as long as that one does not
//! rest for two weeks. Meanwhile all others wait, each for one of its days, and are asked again
//! where they come first. So a service is asked as often as it rests, and not on each of its days.
ghost use Rattle.std.specs.Prelude.{All, ◌≡◌, ◌<◌, true, false, length, IfOk, OnOk, Bool, ℕ, ℤ, Some, pos, ◌+ℤ◌, ◌≤ℤ◌, ◌<ℤ◌, slice_get, slice_index_or};
ghost use Rattle.std.specs.BinaryHeap.{IsHeap, heap_items};
ghost use Rattle.gtfs_days.specs.Service.{first_service_day, is_active, last_service_day};
ghost use Rattle.gtfs_advice.specs.ServedDays.{AreAllKnown, AreKnown, RunsOnServiceDays};
ghost use Rattle.gtfs_advice.specs.WaitingServices.{AreWaiting, IsServedBy, Joins, runs_on, wait_cmp};

use crate::served_days::ServedDays;
use gtfs_days::{FIRST_SERVICE_DAY, Service};
use gtfs_field::{Day, OutOfMemory};
use gtfs_rows::ServiceRow;
use std::alloc::Global;
use std::cmp::Reverse;
use std::collections::BinaryHeap;

// Services by their numbers, each with a day on which it runs. The earliest day comes first.
type Waiting = BinaryHeap<Reverse<(Day, usize)>>;

// The days on which these services run, of which only those that are used count.
pub(crate) fn all_days(
    alloc: Global,
    services: &[ServiceRow],
    used: &[bool],
) -> Result<ServedDays, OutOfMemory>
    requires { length used.now ≡ length services.now }
    ensures { IfOk result (λ days. (served : ℤ → Bool)
        → IsServedBy services.now used.now served → AreAllKnown served days) }
{
    let mut waiting = first_days(alloc, services, used)?;
    let mut days = ServedDays::none(alloc);
    walk(services, &mut waiting, &mut days).and(Ok(days))
}

// Walks the days of services until none waits.
fn walk(
    services: &[ServiceRow],
    waiting: &mut Waiting,
    days: &mut ServedDays,
) -> Result<(), OutOfMemory>
    requires each { All (λ w. runs_on services.now w.0.1 w.0.0 ≡ true) (heap_items waiting.old) }
    requires first { IsHeap wait_cmp (heap_items waiting.old) }
    requires until { days.old.until ≤ℤ (last_service_day +ℤ pos 1) }
    ensures { OnOk result ((served : ℤ → Bool) → RunsOnServiceDays served
        → AreWaiting services.now served days.old.until (heap_items waiting.old)
        → AreKnown served days.old → AreAllKnown served days.new) }
{
    while let Some(next) = waiting.pop() {
        let Reverse((due, number)) = next;
        let service = &services[number].service;
        days.follow(service, due)?;
        wait(waiting, service, number, days.until)?;
    }
    Ok(())
}

// Each used service with the first day on which it runs.
fn first_days(alloc: Global, services: &[ServiceRow], used: &[bool]) -> Result<Waiting, OutOfMemory>
    requires { length used.now ≡ length services.now }
    ensures each { IfOk result (λ waiting. All (λ w. runs_on services.now w.0.1 w.0.0 ≡ true)
        (heap_items waiting)) }
    ensures first { IfOk result (λ waiting. IsHeap wait_cmp (heap_items waiting)) }
    ensures all { IfOk result (λ waiting. (served : ℤ → Bool)
        → IsServedBy services.now used.now served
        → AreWaiting services.now served first_service_day (heap_items waiting)) }
{
    let first = Day::from_number(FIRST_SERVICE_DAY);
    let mut waiting = BinaryHeap::new(alloc);
    for (number, row) in services.iter().enumerate() {
        if used[number] {
            wait(&mut waiting, &row.service, number, first)?;
        }
    }
    Ok(waiting)
}

// A service waits for the first day from this one on on which it runs, if there is one.
fn wait(
    waiting: &mut Waiting,
    service: &Service,
    number: usize,
    from: Day,
) -> Result<(), OutOfMemory>
    ensures joins { OnOk result (Joins (is_active service.now) number from
        (heap_items waiting.old) (heap_items waiting.new)) }
    ensures first { OnOk result (IsHeap wait_cmp (heap_items waiting.old)
        → IsHeap wait_cmp (heap_items waiting.new)) }
{
    if let Some(day) = service.next_active(from) {
        waiting.push(Reverse((day, number)))?;
    }
    Ok(())
}
