//! Texts as the content of a dataset has them: a space in place of each control character.

ghost use Rattle.std.specs.Prelude.{◌≡◌, string_bytes, IfOk};
ghost use Rattle.gtfs_schema.specs.FieldValues.{plain};

use gtfs_field::OutOfMemory;
use gtfs_schema::push_plain;
use std::alloc::Global;

// The text with a space in place of each control character.
pub(crate) fn plain(alloc: Global, text: &str) -> Result<String, OutOfMemory>
    ensures { IfOk result (λ shown. string_bytes shown ≡ plain text.now) }
{
    let mut shown = String::with_capacity(alloc, text.len())?;
    push_plain(&mut shown, text);
    Ok(shown)
}
