/// Which times the rows of `stop_times.txt` have.
#[derive(Clone, Copy, Debug, PartialEq, Eq)]
pub enum Times {
    /// Those of the file: a row with neither an arrival nor a departure has none.
    Given,
    /// A row with neither has the time of a vehicle that goes at an even pace, position by
    /// position, from the nearest row with a time before it to the nearest one after it. Where
    /// one of these is missing, it has none.
    Interpolated,
}
