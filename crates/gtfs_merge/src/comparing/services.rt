ghost use Rattle.std.specs.Prelude.{◌≡◌};
ghost use Rattle.gtfs_merge.specs.SameRows.{same_service};

use gtfs_days::Service;

// Whether two services are the same: their calendar rows, if any, and their exceptions.
pub(crate) fn is_same_service(a: &Service, b: &Service) -> bool
    ensures { result ≡ same_service a.now b.now }
{
    a.week() == b.week() && a.exceptions() == b.exceptions()
}
