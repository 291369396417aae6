/// What a row of `calendar_dates.txt` does to its day (GTFS Schedule Reference, `exception_type`).
#[derive(Clone, Copy, Debug, PartialEq, Eq)]
pub enum Exception {
    /// Service has been added for the day: type 1.
    Added,
    /// Service has been removed for the day: type 2.
    Removed,
}
