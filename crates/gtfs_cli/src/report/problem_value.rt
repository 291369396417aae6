ghost use Rattle.std.specs.Prelude.{◌≡◌, ◌++◌, if◌then◌else◌, chars, encode_utf8, encode_utf8_all, string_bytes, take, OnOk};
ghost use Rattle.gtfs_schema.specs.FieldValues.{plain};
ghost use Rattle.gtfs_table.specs.Blanks.{is_control};
ghost use Rattle.gtfs_cli.specs.CheckLines.{shown_value, value_field};

use gtfs_field::OutOfMemory;
use gtfs_schema::push_plain;

// The most characters of a value that are shown whole.
const MOST: usize = 60;

// How many characters of a longer one are shown.
const BEGINNING: usize = 57;

// Appends a tab and a value in quotes. A long one is cut, and a control character is a space.
// Errors: `OutOfMemory` where the text cannot grow.
pub(super) fn push_value(text: &mut String, value: &str) -> Result<(), OutOfMemory>
    ensures { OnOk result (string_bytes text.new
        ≡ string_bytes text.old ++ value_field value.now) }
{
    text.push_str("\t\"")?;
    push_shown(text, value)?;
    text.push_str("\"")
}

fn push_shown(text: &mut String, value: &str) -> Result<(), OutOfMemory>
    ensures { OnOk result (string_bytes text.new
        ≡ string_bytes text.old ++ plain (shown_value value.now)) }
{
    if value.chars().count() > MOST {
        push_beginning(text, value)?;
        text.push_str("...")
    } else {
        text.reserve(value.len())?;
        push_plain(text, value);
        Ok(())
    }
}

// Appends the first characters of a value.
fn push_beginning(text: &mut String, value: &str) -> Result<(), OutOfMemory>
    ensures { OnOk result (string_bytes text.new
        ≡ string_bytes text.old ++ plain (encode_utf8_all (take 57 (chars value.now)))) }
{
    for character in value.chars().take(BEGINNING) {
        push_character(text, character)?;
    }
    Ok(())
}

// Appends a space for a control character, and any other as it is.
fn push_character(text: &mut String, character: char) -> Result<(), OutOfMemory>
    ensures { OnOk result (string_bytes text.new
        ≡ string_bytes text.old ++ plain (encode_utf8 character)) }
{
    text.push(shown_character(character))
}

fn shown_character(character: char) -> char
    ensures { result ≡ (if is_control character then 32 else character) }
{
    if character.is_ascii_control() {
        ' '
    } else {
        character
    }
}
