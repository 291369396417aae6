//! Pieces of a line. Whoever appends one has made room for it.
ghost use Rattle.std.specs.Prelude.{◌≡◌, ◌++◌, ◌≤◌, ◌+◌, length, string_bytes, string_len};
ghost use Rattle.std.specs.String.{string_capacity};

// Appends what stands before a piece, and the piece.
pub(super) fn push_piece(text: &mut String, before: &str, piece: &str)
    requires { string_len text.old + (length before.now + length piece.now)
        ≤ string_capacity text.old }
    ensures appended { string_bytes text.new ≡ string_bytes text.old ++ (before.now ++ piece.now) }
    ensures len { string_len text.new ≡ string_len text.old +
        (length before.now + length piece.now) }
    ensures capacity { string_capacity text.old ≤ string_capacity text.new }
{
    text.push_str(before).unwrap();
    text.push_str(piece).unwrap();
}
