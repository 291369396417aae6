use thiserror::Error;

/// What the clock of a zone shows at an instant.
#[derive(Clone, Copy, Debug, PartialEq, Eq)]
pub struct Civil {
    /// The year, from -9999 to 9999.
    pub year: i16,
    /// The month, from 1 for January to 12.
    pub month: u8,
    /// The day of the month, from 1.
    pub day: u8,
    /// The hour, from 0 to 23.
    pub hour: u8,
    /// The minute, from 0 to 59.
    pub minute: u8,
    /// The second, from 0 to 59.
    pub second: u8,
    /// How far the clock is ahead of UTC, in seconds, from -93,599 to 93,599.
    pub offset: i32,
}

/// Why an instant has no local clock.
#[derive(Clone, Copy, Debug, PartialEq, Eq, Error)]
pub enum CivilFault {
    /// The number of seconds is no instant of the calendar.
    #[error("instant out of range")]
    OutOfRange = 1,
    /// Memory ran out.
    #[error("out of memory")]
    OutOfMemory = 2,
}
