ghost use Rattle.std.specs.Prelude.{◌≡◌};
ghost use Rattle.gtfs_trip_rules.specs.ServiceCalendars.{file_of};

use gtfs_table::File;

// One of the files that name services: that of weeks, or that of dates.
#[derive(Clone, Copy)]
pub(crate) enum Source {
    Weeks,
    Dates,
}

impl Source {
    pub(crate) fn file(self) -> File
        ensures { result ≡ file_of self }
    {
        match self {
            Source::Weeks => File::Calendar,
            Source::Dates => File::CalendarDates,
        }
    }
}
