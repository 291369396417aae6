ghost use Rattle.std.specs.Prelude.{◌≡◌, IfOk, OnOk};

use gtfs_field::{OutOfMemory, Text};
use std::alloc::Global;

// The same text once more.
pub(crate) fn copied(alloc: Global, text: &Text) -> Result<Text, OutOfMemory>
    ensures { IfOk result (λ t. t ≡ text.now) }
{
    Text::copy_of(alloc, text.as_str())
}

// Makes a text that may be missing the same as another.
pub(crate) fn copy_if_any(
    alloc: Global,
    text: &Option<Text>,
    other: &mut Option<Text>,
) -> Result<(), OutOfMemory>
    ensures { OnOk result (other.new ≡ text.now) }
{
    *other = copied_if_any(alloc, text)?;
    Ok(())
}

// The same text once more, if there is one.
pub(crate) fn copied_if_any(alloc: Global, text: &Option<Text>) -> Result<Option<Text>, OutOfMemory>
    ensures { IfOk result (λ t. t ≡ text.now) }
{
    match text {
        Some(text) => Ok(Some(copied(alloc, text)?)),
        None => Ok(None),
    }
}
