ghost use Rattle.std.specs.Prelude.{◌≡◌, ◌≤◌, ◌∷◌, false, MatchOption};
ghost use Rattle.gtfs_board.specs.KeyTexts.{has_key_shape, plain_up_to};
ghost use Rattle.gtfs_board.specs.KeyParts.{ArePartsOf, IsCutAtFirst, IsCutAtLast, LacksAt, LacksSlash};
ghost use Rattle.gtfs_board.specs.LentKeys.{ReadsAs};

use crate::key::Key;
use gtfs_field::{FieldFault, read_count, read_date, read_instant};

// The greatest second at which a run starts: a time of three digits of hours.
const LAST_RUN: u32 = 3_599_999;

// The greatest sequence of a stop time: a count.
const LAST_SEQUENCE: u32 = 2_147_483_647;

// The parts of a key's text.
#[derive(Clone, Copy)]
pub struct KeyParts<'a> {
    pub instant: &'a str,
    pub trip: &'a str,
    pub run: &'a str,
    pub sequence: &'a str,
    pub day: &'a str,
}

/// Reads the text of a key: `@<instant>/<trip id>/<run>/<sequence>/<YYYYMMDD>`, numbers with no
/// zero in front. The instant goes up to the first slash, and the last three parts are cut from the
/// right, so a trip's id may hold slashes; it may also be empty.
///
/// # Errors
/// `Form` where the `@` or one of four slashes is missing. Else the first fault of the instant, as
/// of [`read_instant`], the run (`Range` above 3,599,999), the sequence (`Range` above
/// 2,147,483,647) and the day, as of [`read_date`].
pub fn read_key(text: &str) -> Result<Key<'_>, FieldFault>
    ensures { ReadsAs text.now result }
{
    let Some(parts) = parts_of(text) else {
        return Err(FieldFault::Form);
    };
    Ok(Key {
        instant: read_instant(parts.instant)?,
        trip: parts.trip,
        run: read_plain(parts.run, LAST_RUN)?,
        seq: read_plain(parts.sequence, LAST_SEQUENCE)?,
        day: read_date(parts.day)?,
    })
}

// The parts of a text that has the shape of a key's.
fn parts_of(text: &str) -> Option<KeyParts<'_>>
    ensures { MatchOption result (has_key_shape text.now ≡ false) (ArePartsOf text.now) }
{
    let (instant, rest) = cut_at_first(after_at(text)?)?;
    let (rest, day) = cut_at_last(rest)?;
    let (rest, sequence) = cut_at_last(rest)?;
    let (trip, run) = cut_at_last(rest)?;
    Some(KeyParts {
        instant,
        trip,
        run,
        sequence,
        day,
    })
}

// What follows an `@` at the beginning.
fn after_at(text: &str) -> Option<&str>
    ensures { MatchOption result (LacksAt text.now) (λ x. text.now ≡ 64 ∷ x.now) }
{
    text.strip_prefix('@')
}

// What stands before the first slash and after it.
fn cut_at_first(text: &str) -> Option<(&str, &str)>
    ensures { MatchOption result (LacksSlash text.now)
        (λ x. IsCutAtFirst text.now x.0.now x.1.now) }
{
    text.split_once('/')
}

// What stands before the last slash and after it.
fn cut_at_last(text: &str) -> Option<(&str, &str)>
    ensures { MatchOption result (LacksSlash text.now) (λ x. IsCutAtLast text.now x.0.now x.1.now) }
{
    text.rsplit_once('/')
}

// The number of a text with no zero in front, up to a limit.
fn read_plain(text: &str, limit: u32) -> Result<u32, FieldFault>
    requires { limit ≤ 2_147_483_647 }
    ensures { result ≡ plain_up_to limit text.now }
{
    if let [b'0', _, ..] = text.as_bytes() {
        return Err(FieldFault::Form);
    }
    match read_count(text) {
        Ok(count) if count > limit => Err(FieldFault::Range),
        read => read,
    }
}
