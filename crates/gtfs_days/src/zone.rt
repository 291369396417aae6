ghost use Rattle.std.specs.Prelude.{◌≡◌, ◌↔◌, true, ℤ, pos, ◌*ℤ◌, ◌-ℤ◌, ◌<ℤ◌, ◌≤ℤ◌, IfOk, IfErr, IsOk, IsErr, IsErrOf};
ghost use Rattle.jiff_core.specs.Calendar.{IsBetween, IsWithin};
ghost use Rattle.jiff_core.specs.Timestamp.{nanos_of_seconds};
ghost use Rattle.jiff_tz.specs.Tzif as Table;
ghost use Rattle.jiff.specs.Words.{compatible_offset};
ghost use Rattle.jiff.specs.ZoneView.{plain_offsets};
ghost use Rattle.gtfs_field.specs.Calendar.{date_of_day};
ghost use Rattle.gtfs_days.specs.Service.{first_service_day, is_service_day};
ghost use Rattle.gtfs_days.specs.Noon.{noon as noon_of, shown as shown_of};

use crate::civil::{Civil, CivilFault};
use gtfs_field::{Day, OutOfMemory};
use jiff::Timestamp;
use jiff::civil::DateTime;
use jiff::tz::{AmbiguousOffset, Offset, TimeZone, Tzif};
use jiff_core::{Error, civil};
use std::alloc::Global;
use thiserror::Error;

// The greatest zone file that is read, in bytes.
const LIMIT: usize = 1_048_576;

// The seconds of a day.
pub(crate) const SECONDS_PER_DAY: i64 = 86_400;

/// A time zone, as its file states it.
#[derive(Debug, Drop)]
pub struct Zone {
    table: Tzif,
}

/// Why a zone file is not read.
#[derive(Clone, Copy, Debug, PartialEq, Eq, Error)]
pub enum ZoneFault {
    /// More than 1,048,576 bytes, bytes that are no zone file (TZif, RFC 9636), or a rule at the
    /// end of the file that contradicts the last row of its table.
    #[error("not a zone file")]
    Unreadable = 1,
    /// Memory ran out.
    #[error("out of memory")]
    OutOfMemory = 2,
}

impl Zone {
    ghost use Rattle.gtfs_days.specs.Zone.{transitions_of, zone_origin, noon_offset, IsTooLong, HasFault, IsUnreadable, IsZoneOf, IsInstant, IsCivil};

    /// Reads a zone file, which is TZif data (RFC 9636).
    ///
    /// # Errors
    /// `Unreadable` where there are more than 1,048,576 bytes, which is judged first, or where
    /// `jiff` refuses them for what they say. Bytes that break the format are `Unreadable` whatever
    /// the memory. `OutOfMemory` where memory ran out.
    pub fn read(alloc: Global, bytes: &[u8]) -> Result<Zone, ZoneFault>
        ensures value { IfOk result (IsZoneOf bytes.now) }
        ensures long { IsTooLong bytes.now → IsErrOf result ZoneFault.Unreadable }
        ensures broken { HasFault bytes.now → IsErrOf result ZoneFault.Unreadable }
        ensures refused { IsUnreadable bytes.now → IsErr result }
        ensures unreadable { IsErrOf result ZoneFault.Unreadable → IsUnreadable bytes.now }
    {
        if bytes.len() > LIMIT {
            return Err(ZoneFault::Unreadable);
        }
        match Tzif::parse(alloc, None, bytes) {
            Ok(table) => Ok(Zone { table }),
            Err(Error::OutOfMemory) => Err(ZoneFault::OutOfMemory),
            Err(_) => Err(ZoneFault::Unreadable),
        }
    }

    /// The origin of a service day, from which its times count: noon in the zone less twelve
    /// hours, in seconds since 1970-01-01T00:00:00Z. Noon that is skipped or repeated is read by
    /// the offset before the change. Origins need not rise with the days.
    ///
    /// GTFS Schedule Reference, "Field Types", Time. The day is one from 1900-01-01 to 9998-12-31.
    ///
    /// # Errors
    /// None: it takes no memory.
    pub fn origin(&self, _alloc: Global, day: Day) -> Result<i64, OutOfMemory>
        requires { is_service_day day ≡ true }
        ensures answers { IsOk result }
        ensures value { IfOk result (λ x. x ≡ zone_origin self.now day) }
        ensures near { IfOk result (λ x. IsWithin 93_599 ((day *ℤ pos 86_400) -ℤ x)) }
    {
        let number = day.number();
        let ahead = self.noon_offset(date_of(number)).seconds();
        Ok(i64::from(number) * SECONDS_PER_DAY - i64::from(ahead))
    }

    // The offset by which the zone reads noon of a date.
    fn noon_offset(&self, date: civil::Date) -> Offset
        ensures { result ≡ noon_offset self.now date }
    {
        let offsets = TimeZone::tzif(&self.table)
            .to_ambiguous_timestamp(DateTime::from_plain(noon(date)))
            .offset();
        compatible(offsets)
    }

    /// What the zone's clock shows at an instant, in seconds since 1970-01-01T00:00:00Z.
    ///
    /// # Errors
    /// `OutOfRange` where the number is no instant of `jiff`, which has those from -377,705,023,201
    /// to 253,402,207,200. `OutOfMemory` never, since it takes no memory.
    pub fn civil(&self, _alloc: Global, instant: i64) -> Result<Civil, CivilFault>
        ensures succeeds { IsOk result ↔ IsInstant instant }
        ensures value { IfOk result (IsCivil self.now instant) }
        ensures out_of_range { IfErr result (λ e. e ≡ CivilFault.OutOfRange) }
    {
        let Ok(timestamp) = Timestamp::from_second(instant) else {
            return Err(CivilFault::OutOfRange);
        };
        Ok(self.civil_at(timestamp))
    }

    /// The same of a number that is an instant of `jiff`, so that it cannot fail.
    pub fn clock(&self, instant: i64) -> Civil
        requires { IsInstant instant }
        ensures { IsCivil self.now instant result }
    {
        let timestamp = Timestamp::from_second(instant).unwrap();
        self.civil_at(timestamp)
    }

    // What the zone's clock shows at a timestamp.
    fn civil_at(&self, timestamp: Timestamp) -> Civil
        ensures { (x : ℤ) → timestamp.nanosecond ≡ nanos_of_seconds x → IsCivil self.now x result }
    {
        let offset = TimeZone::tzif(&self.table).to_offset(timestamp);
        shown(offset.to_datetime(timestamp).to_plain(), offset)
    }

    // The end of a stretch of instants from this one on at which the zone has one offset: the next
    // change, and at the latest the end of the day by UTC.
    pub(crate) fn offset_end(&self, instant: i64) -> i64
        requires { IsInstant instant }
        ensures { (x : ℤ) → IsInstant x → instant ≤ℤ x → x <ℤ result
            → Table.offset_at (transitions_of self.now) (nanos_of_seconds x)
            ≡ Table.offset_at (transitions_of self.now) (nanos_of_seconds instant) }
    {
        let timestamp = Timestamp::from_second(instant).unwrap();
        let day_end = (instant.div_euclid(SECONDS_PER_DAY) + 1) * SECONDS_PER_DAY;
        match self.table.next_transition(timestamp.to_plain()) {
            Some(change) => change.timestamp.floor_second().min(day_end),
            None => day_end,
        }
    }
}

// The date of a day's number.
fn date_of(number: i32) -> civil::Date
    requires { IsBetween first_service_day (pos 2_932_896) number }
    ensures { result ≡ date_of_day number }
{
    // The number of -9999-01-01 is -4,371,587.
    civil::Date::from_days_since_min((number + 4_371_587) as u32)
}

// Noon of a date.
fn noon(date: civil::Date) -> civil::DateTime
    ensures { result ≡ noon_of date }
{
    civil::DateTime {
        date,
        time: civil::Time {
            hour: 12,
            minute: 0,
            second: 0,
            subsec_nanosecond: 0,
        },
    }
}

// The offset before a gap, and of two that of the earlier instant.
fn compatible(offsets: AmbiguousOffset) -> Offset
    ensures { result ≡ compatible_offset (plain_offsets offsets) }
{
    match offsets {
        AmbiguousOffset::Unambiguous { offset } => offset,
        AmbiguousOffset::Gap { before, .. } => before,
        AmbiguousOffset::Fold { before, .. } => before,
    }
}

// What a clock with this offset shows.
fn shown(clock: civil::DateTime, offset: Offset) -> Civil
    ensures { result ≡ shown_of clock offset }
{
    Civil {
        year: clock.date.year,
        month: clock.date.month,
        day: clock.date.day,
        hour: clock.time.hour,
        minute: clock.time.minute,
        second: clock.time.second,
        offset: offset.seconds(),
    }
}
