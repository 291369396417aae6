ghost use Rattle.std.specs.Prelude.{◌≡◌, ◌++◌, ◌≤◌, ◌+◌, if◌then◌else◌, length, string_bytes, string_len};
ghost use Rattle.std.specs.String.{string_capacity};
ghost use Rattle.gtfs_schema.specs.FieldValues.{plain};
ghost use Rattle.gtfs_table.specs.Blanks.{is_control};

/// Appends a text with a space in place of each control character.
/// Whoever calls it has made room for the text.
pub fn push_plain(shown: &mut String, text: &str)
    requires { string_len shown.old + length text.now ≤ string_capacity shown.old }
    ensures appended { string_bytes shown.new ≡ string_bytes shown.old ++ plain text.now }
    ensures len { string_len shown.new ≡ string_len shown.old + length text.now }
    ensures capacity { string_capacity shown.old ≤ string_capacity shown.new }
{
    for character in text.chars() {
        shown.push(plain_character(character)).unwrap();
    }
}

// A space for a control character, and any other as it is.
fn plain_character(character: char) -> char
    ensures { result ≡ (if is_control character then 32 else character) }
{
    if character.is_ascii_control() {
        ' '
    } else {
        character
    }
}
