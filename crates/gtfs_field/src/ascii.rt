//! Short ASCII texts: made on the stack, and appended in one piece.
ghost use Rattle.std.specs.Prelude.{◌≡◌, ◌++◌, ◌<◌, ◌≤◌, ◌^◌, ◌+◌, ◌-◌, IsOk, OnOk, OnErr, length, take, drop, string_bytes, string_len};
ghost use Rattle.std.specs.String.{string_capacity};
ghost use Rattle.std.specs.Str.{IsAscii};
ghost use Rattle.gtfs_field.specs.Digits.{wide};

use crate::OutOfMemory;
use itoa::write_digits;

// Appends ASCII bytes to a text: all of them, or none where memory is refused.
pub(crate) fn push_ascii(text: &mut String, bytes: &[u8]) -> Result<(), OutOfMemory>
    requires { IsAscii bytes.now }
    ensures appended { OnOk result (string_bytes text.new ≡ string_bytes text.old ++ bytes.now) }
    ensures unchanged { OnErr result (string_bytes text.new ≡ string_bytes text.old) }
    ensures room { string_len text.old + length bytes.now ≤ string_capacity text.old → IsOk result }
{
    text.push_str(str::from_utf8(bytes).unwrap())
}

// Writes a number into the `width` bytes that end at `end`, with zeros in front.
pub(crate) fn write_wide(number: u64, width: usize, end: usize, bytes: &mut [u8])
    requires small { number < 10 ^ width }
    requires within { (0 < width) × (width ≤ end) × (end ≤ length bytes.old) }
    ensures { bytes.new
        ≡ take (end - width) bytes.old ++ (wide width number ++ drop end bytes.old) }
{
    bytes[end - width..end].fill(b'0');
    let _ = write_digits(number, bytes, end);
}
