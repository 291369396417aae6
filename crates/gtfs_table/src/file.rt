ghost use Rattle.std.specs.Prelude.{◌≡◌};
ghost use Rattle.gtfs_table.specs.FileNames.{file_name};

/// One of the nine files of a GTFS Schedule dataset that are read and kept (GTFS
/// Schedule Reference, "Dataset Files").
#[derive(Clone, Copy, Debug, PartialEq, Eq)]
pub enum File {
    /// `agency.txt`: the agencies, with their time zones.
    Agency,
    /// `stops.txt`: the stops, with their places.
    Stops,
    /// `routes.txt`: the routes.
    Routes,
    /// `trips.txt`: the trips, each of a route and a service.
    Trips,
    /// `stop_times.txt`: when each trip comes to its stops and leaves them.
    StopTimes,
    /// `calendar.txt`: the weekdays of a service, from a first day to a last.
    Calendar,
    /// `calendar_dates.txt`: the days that are added to a service or removed from it.
    CalendarDates,
    /// `frequencies.txt`: the trips that run again and again, with a headway.
    Frequencies,
    /// `transfers.txt`: how to change from one stop, route or trip to another.
    Transfers,
}

impl File {
    /// The nine files, in the order in which they are read and written.
    pub const ALL: [File; 9] = [
        File::Agency,
        File::Stops,
        File::Routes,
        File::Trips,
        File::StopTimes,
        File::Calendar,
        File::CalendarDates,
        File::Frequencies,
        File::Transfers,
    ];

    /// The file's name in a dataset's folder, as `stop_times.txt`.
    pub fn name(self) -> &'static str
        ensures { result.now ≡ file_name self }
    {
        match self {
            File::Agency => "agency.txt",
            File::Stops => "stops.txt",
            File::Routes => "routes.txt",
            File::Trips => "trips.txt",
            File::StopTimes => "stop_times.txt",
            File::Calendar => "calendar.txt",
            File::CalendarDates => "calendar_dates.txt",
            File::Frequencies => "frequencies.txt",
            File::Transfers => "transfers.txt",
        }
    }
}
