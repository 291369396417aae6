ghost use Rattle.std.specs.Prelude.{◌≡◌, ◌<ℤ◌, ◌≤ℤ◌, ◌-ℤ◌, ◌+◌, ◌*◌, ◌<◌, pos, unsigned_abs, IsTrue};
ghost use Rattle.gtfs_days.specs.Zone.{IsCivil, IsInstant};
ghost use Rattle.gtfs_days.specs.ZoneClock.{after_midnight, IsKnown};

use crate::civil::Civil;
use crate::zone::{SECONDS_PER_DAY, Zone};
use std::marker::Model;

/// The clock of a zone, for one that looks at it often: a look tells what the clock shows until the
/// day ends or the offset may change.
#[derive(Drop)]
pub struct ZoneClock<'a> {
    zone: &'a Zone,
    // What the last look at the zone told.
    known: Option<Known>,
}

impl<'a> Model for ZoneClock<'a> {
    ghost use Rattle.std.specs.Prelude.{IfSome};
    ghost use Rattle.gtfs_days.specs.ZoneClock.{IsKnown};
    ghost use Rattle.gtfs_days.specs.declared.zone.Zone.{Zone as ZoneValue};

    ghost Value = { ZoneValue };

    ghost view = { λ c. c.zone.now };

    ghost invariant = { λ c. IfSome c.known (IsKnown c.zone.now) };
}

impl<'a> ZoneClock<'a> {
    /// The clock of a zone.
    pub fn new(zone: &'a Zone) -> ZoneClock<'a>
        ensures { result ≡ zone.now }
    {
        ZoneClock { zone, known: None }
    }

    /// What the clock shows at an instant, in seconds since 1970-01-01T00:00:00Z, which is one of
    /// `jiff`, from -377,705,023,201 to 253,402,207,200. Instants may come in any order; it is fast
    /// where most come shortly after the one before.
    pub fn at(&mut self, instant: i64) -> Civil
        requires { IsInstant instant }
        ensures value { IsCivil self.old instant result }
        ensures zone { self.new ≡ self.old }
    {
        if let Some(known) = self.known {
            if known.tells(instant) {
                return known.shown(instant);
            }
        }
        self.look(instant)
    }

    // The same by a look at the zone, of which it keeps what it tells.
    fn look(&mut self, instant: i64) -> Civil
        requires { IsInstant instant }
        ensures value { IsCivil self.old instant result }
        ensures zone { self.new ≡ self.old }
    {
        let shown = self.zone.clock(instant);
        self.known = Some(Known::from_look(self.zone, instant, shown));
        shown
    }
}

// A stretch of instants on one day of a zone's calendar, in which the zone has one offset.
#[derive(Clone, Copy)]
struct Known {
    // The first of them, and the first after them.
    from: i64,
    until: i64,
    // Midnight of that day, by that offset.
    midnight: i64,
    // What the clock shows at one of them.
    shown: Civil,
}

impl Known {
    // What a look at the zone tells, whose clock shows this at an instant.
    fn from_look(zone: &Zone, instant: i64, shown: Civil) -> Known
        requires instant { IsInstant instant }
        requires shown { IsCivil zone.now instant shown }
        ensures { IsKnown zone.now result }
    {
        let midnight = instant - second_of_day(&shown);
        Known {
            from: instant,
            until: zone.offset_end(instant).min(midnight + SECONDS_PER_DAY),
            midnight,
            shown,
        }
    }

    // Whether an instant is one of these.
    fn tells(&self, instant: i64) -> bool
        ensures { IsTrue result → (self.now.from ≤ℤ instant) × (instant <ℤ self.now.until) }
    {
        self.from <= instant && instant < self.until
    }

    // What the clock shows at an instant of that day.
    fn shown(&self, instant: i64) -> Civil
        requires from { self.now.midnight ≤ℤ instant }
        requires day { (instant -ℤ self.now.midnight) <ℤ pos 86_400 }
        ensures { result
            ≡ after_midnight self.now.shown (unsigned_abs (instant -ℤ self.now.midnight)) }
    {
        let second = (instant - self.midnight) as u32;
        Civil {
            hour: (second / 3600) as u8,
            minute: (second / 60 % 60) as u8,
            second: (second % 60) as u8,
            ..self.shown
        }
    }
}

// How many seconds after midnight a clock shows this.
fn second_of_day(shown: &Civil) -> i64
    requires hour { shown.now.hour < 24 }
    requires minute { shown.now.minute < 60 }
    requires second { shown.now.second < 60 }
    ensures { result ≡ pos (3600 * shown.now.hour + 60 * shown.now.minute + shown.now.second) }
{
    i64::from(shown.hour) * 3600 + i64::from(shown.minute) * 60 + i64::from(shown.second)
}
