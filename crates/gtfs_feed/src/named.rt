ghost use Rattle.std.specs.Prelude.{◌≡◌, ℕ, List, bytes_eq, map, position};
ghost use Rattle.std.specs.Ordering.{on};
ghost use Rattle.gtfs_field.specs.TextOrder.{text_cmp};
ghost use Rattle.gtfs_rows.specs.TransferOrder.{Ascends};

use gtfs_rows::{Agency, Route, ServiceRow, Stop, Trip};

// A row with an id of its own.
pub(crate) trait Named {
    ghost name: { Self → List ℕ };

    fn id(&self) -> &str
        ensures { result.now ≡ name self.now };
}

impl Named for Agency {
    ghost name = { λ a. a.agency_id };

    fn id(&self) -> &str {
        self.agency_id.as_str()
    }
}

impl Named for Stop {
    ghost name = { λ s. s.stop_id };

    fn id(&self) -> &str {
        self.stop_id.as_str()
    }
}

impl Named for Route {
    ghost name = { λ r. r.route_id };

    fn id(&self) -> &str {
        self.route_id.as_str()
    }
}

impl Named for ServiceRow {
    ghost name = { λ s. s.service_id };

    fn id(&self) -> &str {
        self.service_id.as_str()
    }
}

impl Named for Trip {
    ghost name = { λ t. t.trip_id };

    fn id(&self) -> &str {
        self.trip_id.as_str()
    }
}

// The number of the row with this id, among rows that ascend by their ids.
pub(crate) fn number_of<R: Named>(rows: &[R], id: &str) -> Option<usize>
    requires { Ascends (on R.name text_cmp) rows.now }
    ensures { result ≡ position (bytes_eq id.now) (map R.name rows.now) }
{
    rows.binary_search_by(|row| row.id().cmp(id)).ok()
}
