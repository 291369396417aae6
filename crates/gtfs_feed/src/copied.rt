ghost use Rattle.std.specs.Prelude.{◌≡◌, IfOk};

use gtfs_field::{List, OutOfMemory, Text};
use gtfs_rows::{Agency, Route, Stop, Trip};
use std::alloc::Global;

// A row, or a text, that can be made once more.
pub(crate) trait Copied {
    fn again(&self, alloc: Global) -> Result<Self, OutOfMemory>
        ensures { IfOk result (λ other. other ≡ self.now) };
}

impl Copied for Agency {
    fn again(&self, alloc: Global) -> Result<Agency, OutOfMemory> {
        self.under(alloc, self.agency_id.as_str())
    }
}

impl Copied for Stop {
    fn again(&self, alloc: Global) -> Result<Stop, OutOfMemory> {
        self.under(alloc, self.stop_id.as_str(), self.parent_station)
    }
}

impl Copied for Route {
    fn again(&self, alloc: Global) -> Result<Route, OutOfMemory> {
        self.under(alloc, self.route_id.as_str(), self.agency_id)
    }
}

impl Copied for Trip {
    fn again(&self, alloc: Global) -> Result<Trip, OutOfMemory> {
        let id = self.trip_id.as_str();
        self.under(alloc, id, self.route_id, self.service_id)
    }
}

impl Copied for Text {
    fn again(&self, alloc: Global) -> Result<Text, OutOfMemory> {
        Text::copy_of(alloc, self.as_str())
    }
}

// The same rows once more.
pub(crate) fn copied_rows<R: Copied + Drop>(
    alloc: Global,
    rows: &[R],
) -> Result<List<R>, OutOfMemory>
    ensures { IfOk result (λ list. list ≡ rows.now) }
{
    let mut list = Vec::with_capacity(alloc, rows.len())?;
    for row in rows {
        list.push(row.again(alloc)?)?;
    }
    Ok(List::new(list))
}
