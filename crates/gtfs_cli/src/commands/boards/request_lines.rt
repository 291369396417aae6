ghost use Rattle.std.specs.Prelude.{◌≡◌, map, IfOk, IfSome, IsUtf8, None};
ghost use Rattle.std.specs.Str.Lines.{lines};
ghost use Rattle.gtfs_table.specs.Tables.{without_marks};

use gtfs_field::OutOfMemory;
use std::alloc::Global;

// U+FEFF in UTF-8.
const MARK: [u8; 3] = [0xEF, 0xBB, 0xBF];

// The text of a file of requests of these bytes, past the byte order marks at its beginning.
// None where it is not UTF-8.
pub(crate) fn text_of(bytes: &[u8]) -> Option<&str>
    ensures text { IfSome result (λ text. text.now ≡ without_marks bytes.now) }
    ensures utf8 { IfSome result (λ _. IsUtf8 (without_marks bytes.now)) }
    ensures none { result ≡ None → IsUtf8 (without_marks bytes.now) → ⊥ }
{
    str::from_utf8(cut_marks(bytes)).ok()
}

fn cut_marks(bytes: &[u8]) -> &[u8]
    ensures { result.now ≡ without_marks bytes.now }
{
    let mut left = bytes;
    while let Some(rest) = left.strip_prefix(&MARK) {
        left = rest;
    }
    left
}

// The lines of a text. Each ends in LF or CRLF, the last one also where the text ends.
pub(crate) fn lines_of<'w>(alloc: Global, text: &'w str) -> Result<Vec<&'w str>, OutOfMemory>
    ensures { IfOk result (λ ls. map (λ l. l.now) ls.items ≡ lines text.now) }
{
    text.lines().collect(alloc)
}
