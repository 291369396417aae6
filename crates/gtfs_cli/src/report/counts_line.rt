ghost use Rattle.std.specs.Prelude.{◌≡◌, ◌++◌, ◌≤◌, ◌+◌, string_bytes, string_len, OnOk, OnErr};
ghost use Rattle.std.specs.String.{string_capacity};
ghost use Rattle.gtfs_cli.specs.CheckLines.{counts_text};

use crate::report::line_pieces::push_piece;
use gtfs_field::OutOfMemory;
use itoa::Buffer;

// How many bytes the line of the counts has, at most: 20 for each number.
const COUNTS_ROOM: usize = 58;

// Appends the last line of a report: how many errors and how many warnings there are.
// Errors: `OutOfMemory` where the text cannot grow; it is then as it was.
pub(crate) fn push_counts(
    text: &mut String,
    errors: usize,
    warnings: usize,
) -> Result<(), OutOfMemory>
    ensures appended { OnOk result (string_bytes text.new
        ≡ string_bytes text.old ++ counts_text errors warnings) }
    ensures unchanged { OnErr result (string_bytes text.new ≡ string_bytes text.old) }
{
    text.reserve(COUNTS_ROOM)?;
    write_counts(text, errors, warnings);
    Ok(())
}

// Appends the line, for which there is room.
fn write_counts(text: &mut String, errors: usize, warnings: usize)
    requires { string_len text.old + 58 ≤ string_capacity text.old }
    ensures { string_bytes text.new ≡ string_bytes text.old ++ counts_text errors warnings }
{
    push_piece(text, "errors ", Buffer::new().format(errors));
    push_piece(text, " warnings ", Buffer::new().format(warnings));
    push_piece(text, "", "\n");
}
