//! Ids and texts of a row as its fields keep them.

ghost use Rattle.std.specs.Prelude.{◌≡◌, [], unwrap_or, IfOk, OnOk};
ghost use Rattle.gtfs_schema.specs.Columns as kind;
ghost use Rattle.gtfs_schema.specs.ReadFields.{word_of};
ghost use Rattle.gtfs_schema.specs.FieldValues.{plain};
ghost use Rattle.gtfs_table.specs.Tables.{field_under};

use gtfs_field::{OutOfMemory, Text};
use gtfs_schema::{has_control, push_plain, values};
use gtfs_table::Record;
use std::alloc::Global;

// The empty text. It takes no memory.
pub(crate) fn empty(alloc: Global) -> Text {
    Text::new(String::new(alloc))
}

// Reads an id of a row, or the empty text where there is none.
pub(crate) fn read_id(
    alloc: Global,
    fields: &Record<'_>,
    column: Option<usize>,
    into: &mut Text,
) -> Result<(), OutOfMemory>
    ensures { OnOk result
        (into.new ≡ unwrap_or (word_of kind.id (field_under fields.now column)) []) }
{
    *into = Text::copy_of(alloc, values::id(fields.value(column)).unwrap_or(""))?;
    Ok(())
}

// Reads a text of a row, a space in place of each control character;
// the empty text where there is none.
pub(crate) fn read_text(
    alloc: Global,
    fields: &Record<'_>,
    column: Option<usize>,
    into: &mut Text,
) -> Result<(), OutOfMemory>
    ensures { OnOk result
        (into.new ≡ unwrap_or (word_of kind.text (field_under fields.now column)) []) }
{
    *into = plain(alloc, fields.value(column))?;
    Ok(())
}

// Reads a text of a row, a space in place of each control character, or none.
pub(crate) fn read_optional_text(
    alloc: Global,
    fields: &Record<'_>,
    column: Option<usize>,
    into: &mut Option<Text>,
) -> Result<(), OutOfMemory>
    ensures { OnOk result (into.new ≡ word_of kind.text (field_under fields.now column)) }
{
    let text = fields.value(column);
    if text.is_empty() {
        *into = None;
    } else {
        *into = Some(plain(alloc, text)?);
    }
    Ok(())
}

// The text with a space in place of each control character.
fn plain(alloc: Global, text: &str) -> Result<Text, OutOfMemory>
    ensures { IfOk result (λ t. t ≡ plain text.now) }
{
    if !has_control(text) {
        return Text::copy_of(alloc, text);
    }
    let mut shown = String::with_capacity(alloc, text.len())?;
    push_plain(&mut shown, text);
    Ok(Text::new(shown))
}
