ghost use Rattle.std.specs.Prelude.{◌≡◌};
ghost use Rattle.csv.specs.Writing.{default_writer, needs_byte, needs_quotes};

// A field that holds what ends a field or a row, or a quote, stands in quotes (RFC 4180,
// section 2).
pub(crate) fn is_quoted(field: &str) -> bool
    ensures { result ≡ needs_quotes default_writer field.now }
{
    // All of them come before the digits and letters: one comparison tells most bytes apart.
    field
        .as_bytes()
        .iter()
        .any(|byte| *byte <= b',' && is_special(*byte))
}

fn is_special(byte: u8) -> bool
    ensures { result ≡ needs_byte default_writer byte }
{
    byte == b',' || byte == b'"' || byte == b'\r' || byte == b'\n'
}
