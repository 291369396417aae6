ghost use Rattle.std.specs.Prelude.{◌≡◌};
ghost use Rattle.gtfs_cli.specs.SharedOptions.{times_of};

use gtfs_board::Times;

// The times of a board or a timetable, by whether the words have the flag `--interpolate`.
pub(crate) fn read_times(interpolate: bool) -> Times
    ensures { result ≡ times_of interpolate }
{
    if interpolate {
        Times::Interpolated
    } else {
        Times::Given
    }
}
