ghost use Rattle.std.specs.Prelude.{◌≡◌};
ghost use Rattle.gtfs_merge.specs.SameRows.{same_degrees, same_number, same_text};

use gtfs_field::{Coord, Text};
use gtfs_rows::OptionalClock;

// Whether two texts that may be missing are the same.
pub(crate) fn is_same_text(a: &Option<Text>, b: &Option<Text>) -> bool
    ensures { result ≡ same_text a.now b.now }
{
    match (a, b) {
        (Some(a), Some(b)) => a.as_str() == b.as_str(),
        (None, None) => true,
        _ => false,
    }
}

// Whether two coordinates that may be missing are the same.
pub(crate) fn is_same_degrees(a: Option<Coord>, b: Option<Coord>) -> bool
    ensures { result ≡ same_degrees a b }
{
    match (a, b) {
        (Some(a), Some(b)) => a.nanodegrees() == b.nanodegrees(),
        (None, None) => true,
        _ => false,
    }
}

// Whether two counts that may be missing are the same.
pub(crate) fn is_same_number(a: Option<u32>, b: Option<u32>) -> bool
    ensures { result ≡ same_number a b }
{
    match (a, b) {
        (Some(a), Some(b)) => a == b,
        (None, None) => true,
        _ => false,
    }
}

// Whether two times that may be missing are the same.
pub(crate) fn is_same_time(a: OptionalClock, b: OptionalClock) -> bool
    ensures { result ≡ same_number a b }
{
    match (a.get(), b.get()) {
        (Some(a), Some(b)) => a.seconds() == b.seconds(),
        (None, None) => true,
        _ => false,
    }
}
