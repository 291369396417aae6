//! Pieces of a line. Whoever appends one has made room for it.
ghost use Rattle.std.specs.Prelude.{◌≡◌, ◌++◌, ◌≤◌, ◌+◌, ◌%◌, drop, length, string_bytes, string_len, take};
ghost use Rattle.std.specs.String.{string_capacity};
ghost use Rattle.std.specs.Str.{IsAscii};
ghost use Rattle.gtfs_field.specs.Digits.{wide};

// Appends ASCII bytes.
pub(crate) fn push_ascii(text: &mut String, bytes: &[u8])
    requires ascii { IsAscii bytes.now }
    requires room { string_len text.old + length bytes.now ≤ string_capacity text.old }
    ensures appended { string_bytes text.new ≡ string_bytes text.old ++ bytes.now }
    ensures len { string_len text.new ≡ string_len text.old + length bytes.now }
    ensures capacity { string_capacity text.old ≤ string_capacity text.new }
{
    text.push_str(unsafe { str::from_utf8_unchecked(bytes) })
        .unwrap();
}

// Writes the last two digits of a number in place of the two bytes from an index on.
pub(crate) fn write_two_digits(bytes: &mut [u8], at: usize, number: u32)
    requires { at + 2 ≤ length bytes.old }
    ensures written { bytes.new
        ≡ take at bytes.old ++ (wide 2 number ++ drop (at + 2) bytes.old) }
    ensures ascii { IsAscii bytes.old → IsAscii bytes.new }
{
    bytes[at] = digit(number / 10);
    bytes[at + 1] = digit(number);
}

// The last digit of a number.
fn digit(number: u32) -> u8
    ensures { result ≡ 48 + number % 10 }
{
    b'0' + (number % 10) as u8
}
