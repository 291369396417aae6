ghost use Rattle.std.specs.Prelude.{◌≡◌, ◌<◌};

use crate::numbers::HeadsignNo;
use gtfs_field::{Clock, OutOfMemory};
use std::marker::Model;

// What stands for no value: it is no number of seconds, and no number of a headsign.
const NOTHING: u32 = u32::MAX;

/// A time of a service day, or none, in four bytes.
#[derive(Clone, Copy, Debug, PartialEq, Eq)]
pub struct OptionalClock {
    seconds: u32,
}

impl Model for OptionalClock {
    ghost use Rattle.std.specs.Prelude.{ℕ, Option, unwrap_or, ◌≡◌};
    ghost use Rattle.gtfs_stop_times.specs.OptionalNumbers.{IsSeconds, number_if_any, same_number};

    ghost Value = { Option ℕ };

    ghost view = { λ c. number_if_any c.seconds };

    ghost invariant = { λ c. IsSeconds c.seconds };

    ghost inverse = { λ o. record { seconds = unwrap_or o 4_294_967_295 } };

    ghost inverse_ok = { λ c h i. record { seconds = same_number c.seconds i } };
}

impl OptionalClock {
    ghost use Rattle.std.specs.Prelude.{None, Some};

    /// The same as an `Option`, which takes no memory either way.
    pub fn new(clock: Option<Clock>) -> OptionalClock
        ensures { result ≡ clock }
    {
        match clock {
            Some(clock) => OptionalClock {
                seconds: clock.seconds(),
            },
            None => OptionalClock { seconds: NOTHING },
        }
    }

    /// The time, if there is one.
    pub fn get(self) -> Option<Clock>
        ensures { result ≡ self }
    {
        if self.seconds == NOTHING {
            None
        } else {
            Some(Clock::from_seconds(self.seconds))
        }
    }
}

/// A headsign of a feed by its number, or none, in four bytes. The number is below 4,294,967,295.
#[derive(Clone, Copy, Debug, PartialEq, Eq)]
pub struct OptionalHeadsign {
    number: u32,
}

impl Model for OptionalHeadsign {
    ghost use Rattle.std.specs.Prelude.{ℕ, Option, unwrap_or, ◌≤◌};
    ghost use Rattle.gtfs_stop_times.specs.OptionalNumbers.{number_if_any, same_number};

    ghost Value = { Option ℕ };

    ghost view = { λ h. number_if_any h.number };

    ghost inverse = { λ o. record { number = unwrap_or o 4_294_967_295 } };

    ghost inverse_ok = { λ h e i. record { number = same_number h.number i } };
}

impl OptionalHeadsign {
    ghost use Rattle.std.specs.Prelude.{None, Some, option_map, IfOk, IfSome};

    /// The headsign of this number, which is below 4,294,967,295, or none.
    pub fn new(headsign: Option<HeadsignNo>) -> OptionalHeadsign
        requires { IfSome headsign (λ h. h.0 < 4_294_967_295) }
        ensures { result ≡ option_map (λ h. h.0) headsign }
    {
        match headsign {
            Some(HeadsignNo(number)) => OptionalHeadsign { number },
            None => OptionalHeadsign { number: NOTHING },
        }
    }

    /// The headsign at an index in a list of headsigns.
    ///
    /// # Errors
    /// `OutOfMemory` where the index is above 4,294,967,294: no number is left for more headsigns.
    pub fn at_index(index: usize) -> Result<OptionalHeadsign, OutOfMemory>
        ensures { IfOk result (λ headsign. headsign ≡ Some index) }
    {
        match u32::try_from(index) {
            Ok(number) if number < u32::MAX => Ok(OptionalHeadsign::new(Some(HeadsignNo(number)))),
            _ => Err(OutOfMemory),
        }
    }

    /// The number of the headsign, if there is one.
    pub fn get(self) -> Option<HeadsignNo>
        ensures { option_map (λ h. h.0) result ≡ self }
    {
        if self.number == NOTHING {
            None
        } else {
            Some(HeadsignNo(self.number))
        }
    }
}
