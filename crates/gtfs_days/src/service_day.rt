/// The number of 1900-01-01, the first service day, in days since 1970-01-01. No service runs
/// before it, since no date is earlier.
pub const FIRST_SERVICE_DAY: i32 = -25_567;

/// The number of 9998-12-31, the last service day, in days since 1970-01-01. Later dates can stand
/// in files, and no service runs on them.
pub const LAST_SERVICE_DAY: i32 = 2_932_531;
