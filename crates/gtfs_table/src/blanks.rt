ghost use Rattle.std.specs.Prelude.{◌≡◌, if◌then◌else◌, reverse, true, false};
ghost use Rattle.gtfs_table.specs.Blanks.{cut, is_blank as blank_of, is_control, without_first_blanks};
ghost use Rattle.gtfs_table.specs.Rows.{is_empty};

/// A space for a control character (codes 0 to 31, and 127), and any other character as it is.
pub fn plain_character(character: char) -> char
    ensures { result ≡ (if is_control character then 32 else character) }
{
    if character.is_ascii_control() {
        ' '
    } else {
        character
    }
}

// The text without the blanks at its ends:
// a blank is a space or a control character (codes 0 to 31, and 127).
#[inline(always)]
pub(crate) fn cut(text: &str) -> &str
    ensures { result.now ≡ cut text.now }
{
    if has_visible_ends(text.as_bytes()) {
        return text;
    }
    cut_ends(text)
}

// The same where a search for blanks is needed.
#[inline(never)]
fn cut_ends(text: &str) -> &str
    ensures { result.now ≡ cut text.now }
{
    let bytes = cut_end(cut_start(text.as_bytes()));
    unsafe { str::from_utf8_unchecked(bytes) }
}

// Whether a text has nothing to cut, as a look at its ends tells of most.
#[inline(always)]
fn has_visible_ends(bytes: &[u8]) -> bool
    ensures { result ≡ true → cut bytes.now ≡ bytes.now }
{
    if bytes.is_empty() {
        return true;
    }
    is_visible(bytes[0]) && is_visible(bytes[bytes.len() - 1])
}

// Whether something is left of a text, as its first byte tells of most.
#[inline(always)]
pub(crate) fn begins_visible(text: &str) -> bool
    ensures { result ≡ true → is_empty (cut text.now) ≡ false }
{
    let bytes = text.as_bytes();
    !bytes.is_empty() && is_visible(bytes[0])
}

#[inline(always)]
fn is_visible(byte: u8) -> bool
    ensures { result ≡ true → blank_of byte ≡ false }
{
    32 < byte && byte < 127
}

fn cut_start(bytes: &[u8]) -> &[u8]
    ensures { result.now ≡ without_first_blanks bytes.now }
{
    let mut left = bytes;
    while let [first, rest @ ..] = left {
        if !is_blank(*first) {
            break;
        }
        left = rest;
    }
    left
}

fn cut_end(bytes: &[u8]) -> &[u8]
    ensures { result.now ≡ reverse (without_first_blanks (reverse bytes.now)) }
{
    let mut left = bytes;
    while let [rest @ .., last] = left {
        if !is_blank(*last) {
            break;
        }
        left = rest;
    }
    left
}

fn is_blank(byte: u8) -> bool
    ensures { result ≡ blank_of byte }
{
    byte <= 32 || byte == 127
}
