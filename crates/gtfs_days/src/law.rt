ghost use Rattle.std.specs.Prelude.{ℕ, List};
ghost use Rattle.gtfs_days.specs.Zone.{IsZoneOf, SaysSame};
ghost use Rattle.gtfs_days.specs.declared.zone.Zone.{Zone};

/// A law of zones, which its contract states: two zones of the same bytes have one origin for each
/// day and one local clock for each instant. So what is made of a zone by these alone is a
/// function of its file's bytes. It does nothing when it runs.
pub fn zones_are_one()
    ensures { (bytes : List ℕ) (y z : Zone) → IsZoneOf bytes y → IsZoneOf bytes z → SaysSame y z }
{}
