ghost use Rattle.std.specs.Prelude.{◌≡◌, map};
ghost use Rattle.gtfs_rows.specs.RowsInMemory.{stop_row_of};
ghost use Rattle.gtfs_rows.specs.Runs.{first_leaves};
ghost use Rattle.gtfs_rows.specs.declared.parts.Parts.{Parts};
ghost use Rattle.gtfs_advice.specs.StopTimes.{last_comes};

use gtfs_field::Clock;
use gtfs_rows::StopRow;

// When the first of some stop times is left.
pub(crate) fn first_left_at(rows: &[StopRow]) -> Option<Clock>
    ensures { (p : Parts) → result ≡ first_leaves (map (stop_row_of p) rows.now) }
{
    rows.first()?.departs()
}

// When the last of some stop times is reached.
pub(crate) fn last_reached_at(rows: &[StopRow]) -> Option<Clock>
    ensures { (p : Parts) → result ≡ last_comes (map (stop_row_of p) rows.now) }
{
    rows.last()?.arrives()
}
