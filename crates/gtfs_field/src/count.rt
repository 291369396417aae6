ghost use Rattle.std.specs.Prelude.{◌≡◌, ◌++◌, ◌≤◌, ◌<◌, ◌^◌, ℕ, Ok, OnOk, OnErr, string_bytes};
ghost use Rattle.gtfs_field.specs.Kinds.{count_of};
ghost use Rattle.gtfs_field.specs.Canonical.{count_text};

use crate::OutOfMemory;
use crate::digits::number_of;
use crate::fault::FieldFault;
use itoa::Buffer;
use std::alloc::Global;

// The greatest count.
const GREATEST: u64 = 2_147_483_647;

/// Reads a count: one decimal digit or more, 0 to 2,147,483,647; leading zeros are accepted.
///
/// GTFS Schedule Reference, "Field Types", Non-negative integer, and Enum,
/// whose numbers are counts too.
///
/// # Errors
/// `Form` where the text is empty or holds anything but digits,
/// `Range` where the number is greater.
pub fn read_count(text: &str) -> Result<u32, FieldFault>
    ensures { result ≡ count_of text.now }
{
    match number_of(text.as_bytes()) {
        None => Err(FieldFault::Form),
        Some(count) if count <= GREATEST => Ok(count as u32),
        Some(_) => Err(FieldFault::Range),
    }
}

/// Appends the canonical text of a count: its digits with no zero in front.
///
/// # Errors
/// `OutOfMemory` where the text cannot grow; it is then as it was.
pub fn push_count(_alloc: Global, text: &mut String, count: u32) -> Result<(), OutOfMemory>
    ensures appended { OnOk result
        (string_bytes text.new ≡ string_bytes text.old ++ count_text count) }
    ensures unchanged { OnErr result (string_bytes text.new ≡ string_bytes text.old) }
    ensures reads_back { count ≤ 2_147_483_647 → count_of (count_text count) ≡ Ok count }
    ensures unique { (other : ℕ) → other < 2 ^ 32 → count_text other ≡ count_text count
        → other ≡ count }
{
    text.push_str(Buffer::new().format(count))
}
