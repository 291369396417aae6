//! Decimal digits in a text.
ghost use Rattle.std.specs.Prelude.{◌≡◌, ◌+◌, ◌*◌, ◌-◌, ◌^◌, ◌<◌, ◌≤◌, ◌&&◌, ◌∷◌, [], if◌then◌else◌, min, length, IfSome, Some, None, nat_le, nat_lt};
ghost use Rattle.std.specs.Str.{all_ascii_digits};
ghost use Rattle.gtfs_field.specs.Digits.{is_number, number, is_wide};

// The number that decimal digits write, `u64::MAX` where it is larger;
// None where the text is not one digit or more.
pub(crate) fn number_of(text: &[u8]) -> Option<u64>
    ensures value { result ≡ (if is_number text.now
        then Some (min (number text.now) (2 ^ 64 - 1)) else None) }
    ensures bound { IfSome result (λ n. n < 10 ^ length text.now) }
{
    if text.is_empty() {
        None
    } else {
        digits_of(text)
    }
}

// The same, where the text may also be empty: then the number is 0.
pub(crate) fn digits_of(text: &[u8]) -> Option<u64>
    ensures value { result ≡ (if all_ascii_digits text.now
        then Some (min (number text.now) (2 ^ 64 - 1)) else None) }
    ensures bound { IfSome result (λ n. n < 10 ^ length text.now) }
{
    let mut number: u64 = 0;
    for byte in text {
        if !byte.is_ascii_digit() {
            return None;
        }
        number = number
            .saturating_mul(10)
            .saturating_add(u64::from(*byte - b'0'));
    }
    Some(number)
}

// The number below 100 that two decimal digits write.
pub(crate) fn two_digits(tens: u8, ones: u8) -> Option<u32>
    ensures { result ≡ (if is_wide 2 (tens ∷ ones ∷ [])
        then Some (number (tens ∷ ones ∷ [])) else None) }
{
    if tens.is_ascii_digit() && ones.is_ascii_digit() {
        Some(u32::from(tens - b'0') * 10 + u32::from(ones - b'0'))
    } else {
        None
    }
}
