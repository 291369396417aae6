ghost use Rattle.std.specs.Prelude.{◌≡◌};
ghost use Rattle.gtfs_table.specs.Blanks.{is_control};
ghost use Rattle.gtfs_field.specs.Kinds.{count_of, is_in_ranges};
ghost use Rattle.gtfs_schema.specs.steps.CellFaults.{cell_code, code_of, fault_code};
ghost use Rattle.gtfs_schema.specs.ColumnRules.{is_required};
ghost use Rattle.gtfs_schema.specs.steps.FieldCodes.{length_code};
ghost use Rattle.gtfs_schema.specs.steps.ColumnView.{column_of, kind_of};
ghost use Rattle.gtfs_schema.specs.FieldValues.{has_control, one_of};

use crate::code::Code;
use crate::columns::{Column, Empty, Kind};
use gtfs_field::{FieldFault, read_colour, read_coord, read_count, read_date, read_time};

/// What is wrong with a text under a column: it is empty and the column is required (E06), it
/// is an id or a text with a control character (E20, W05), or its kind refuses it (E07, E08).
/// None where nothing is. An empty text under a column that the header does not name
/// (`named`) is no problem of the row.
///
/// GTFS Schedule Reference, "Presence" and "Field Types".
pub fn cell_code(named: bool, column: &Column, text: &str) -> Option<Code>
    ensures { result ≡ cell_code named (column_of column.now) text.now }
{
    if text.is_empty() {
        return (named && is_required(column)).then_some(Code::E06);
    }
    fault_code(column.kind, text)
}

/// Whether the header has to name the column, and each row has to fill it (GTFS Schedule Reference,
/// "Presence").
pub fn is_required(column: &Column) -> bool
    ensures { result ≡ is_required (column_of column.now) }
{
    match column.empty {
        Empty::Refused => true,
        Empty::Nothing => false,
        Empty::Means(_) => false,
    }
}

/// What is wrong with a text that is not empty, by its kind:
/// E07, E08, E20 or W05, and None where nothing is.
///
/// GTFS Schedule Reference, "Field Types".
#[inline(always)]
pub fn fault_code(kind: Kind, text: &str) -> Option<Code>
    ensures { result ≡ fault_code (kind_of kind) text.now }
{
    match kind {
        Kind::Id => has_control(text).then_some(Code::E20),
        Kind::Text => has_control(text).then_some(Code::W05),
        Kind::Count => code_of(read_count(text)),
        Kind::Choice(ranges) => code_of(read_choice(ranges, text)),
        Kind::Time => code_of(read_time(text)),
        Kind::Date => code_of(read_date(text)),
        Kind::Colour => code_of(read_colour(text)),
        Kind::Coordinate(axis) => code_of(read_coord(text, axis)),
    }
}

/// Whether a text holds a control character: one of code 0 to 31, or 127.
#[inline(always)]
pub fn has_control(text: &str) -> bool
    ensures { result ≡ has_control text.now }
{
    holds_control(text.as_bytes())
}

// Whether one of these bytes is a control character.
#[inline(always)]
pub(crate) fn holds_control(bytes: &[u8]) -> bool
    ensures { result ≡ has_control bytes.now }
{
    for byte in bytes {
        if is_control(*byte) {
            return true;
        }
    }
    false
}

// One comparison tells of most characters that they are none.
#[inline(always)]
fn is_control(byte: u8) -> bool
    ensures { result ≡ is_control byte }
{
    if 32 <= byte && byte < 127 {
        return false;
    }
    byte < 32 || byte == 127
}

/// Reads a choice: a count in one of the ranges, each given by its first and its last number.
///
/// GTFS Schedule Reference, "Field Types", Enum.
///
/// # Errors
/// `Form` where the text is empty or holds anything but digits,
/// `Range` where the number is in none of the ranges.
#[inline(always)]
pub fn read_choice(ranges: &[(u32, u32)], text: &str) -> Result<u32, FieldFault>
    ensures { result ≡ one_of ranges.now (count_of text.now) }
{
    let number = read_count(text)?;
    if is_in_ranges(ranges, number) {
        Ok(number)
    } else {
        Err(FieldFault::Range)
    }
}

fn is_in_ranges(ranges: &[(u32, u32)], number: u32) -> bool
    ensures { result ≡ is_in_ranges ranges.now number }
{
    ranges
        .iter()
        .any(|range| range.0 <= number && number <= range.1)
}

fn code_of<V: Drop>(read: Result<V, FieldFault>) -> Option<Code>
    ensures { result ≡ code_of read }
{
    match read {
        Ok(_) => None,
        Err(FieldFault::Form) => Some(Code::E07),
        Err(FieldFault::Range) => Some(Code::E08),
    }
}

/// What is wrong with a row of `count` fields under a header of `width`: W01 where it is short, W02
/// where it is long, and None where it is neither.
///
/// GTFS Schedule Reference, "File Requirements".
pub fn length_code(width: usize, count: usize) -> Option<Code>
    ensures { result ≡ length_code width count }
{
    if count < width {
        return Some(Code::W01);
    }
    (width < count).then_some(Code::W02)
}
