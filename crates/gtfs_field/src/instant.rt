ghost use Rattle.std.specs.Prelude.{◌≡◌, ◌==◌, ◌&&◌, ◌<◌, ◌^◌, IfOk, length, nat_le, neg_ℤ, not, pos, slice_index};
ghost use Rattle.gtfs_field.specs.Digits.{number};
ghost use Rattle.gtfs_field.specs.Kinds.{instant_of, is_plain_number, plain_number_of, shaped, within};

use crate::digits::number_of;
use crate::fault::FieldFault;

/// Reads the instant of a key text, without its `@`:
/// seconds since 1970-01-01T00:00:00Z, with `-` where negative.
///
/// The form is this toolkit's own: no leading zeros, no `-0`, at most 12 digits.
///
/// # Errors
/// `Form` where the text is not such a number of any length,
/// `Range` where it has more than 12 digits.
pub fn read_instant(text: &str) -> Result<i64, FieldFault>
    ensures { result ≡ instant_of text.now }
{
    match text.as_bytes() {
        [b'-', digits @ ..] => negative(digits),
        digits => positive(digits),
    }
}

// The instant before 1970 of these digits after a `-`.
fn negative(digits: &[u8]) -> Result<i64, FieldFault>
    ensures { result ≡ shaped (is_plain_number digits.now && not (slice_index digits.now 0 == 48))
        (within (nat_le (length digits.now) 12) (neg_ℤ (pos (number digits.now)))) }
{
    match digits {
        [b'0', ..] => Err(FieldFault::Form),
        _ => Ok(-(plain_number(digits)? as i64)),
    }
}

// The instant from 1970 on of these digits.
fn positive(digits: &[u8]) -> Result<i64, FieldFault>
    ensures { result ≡ shaped (is_plain_number digits.now)
        (within (nat_le (length digits.now) 12) (pos (number digits.now))) }
{
    Ok(plain_number(digits)? as i64)
}

// The number of at most 12 digits that a text with no leading zero writes.
fn plain_number(digits: &[u8]) -> Result<u64, FieldFault>
    ensures value { result ≡ plain_number_of digits.now }
    ensures bound { IfOk result (λ n. n < 10 ^ 12) }
{
    match number_of(digits) {
        None => Err(FieldFault::Form),
        Some(_) if digits.len() > 1 && digits[0] == b'0' => Err(FieldFault::Form),
        Some(_) if digits.len() > 12 => Err(FieldFault::Range),
        Some(number) => Ok(number),
    }
}
