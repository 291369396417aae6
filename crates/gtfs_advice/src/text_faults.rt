ghost use Rattle.std.specs.Prelude.{◌≡◌};
ghost use Rattle.gtfs_advice.specs.TextFaults.{ends_a_word, has_more_characters, is_garbled, is_garbled_if_given, is_lead, is_odd, lacks_scheme, repeats};

use gtfs_field::Text;

// Whether a text has letters that were read in another encoding than they were written in.
pub(crate) fn is_garbled(text: &str) -> bool
    ensures { result ≡ is_garbled text.now }
{
    let mut is_behind_lead = false;
    for letter in text.chars() {
        if is_odd(is_behind_lead, letter) {
            return true;
        }
        is_behind_lead = is_lead(letter);
    }
    false
}

// The same of a text that may be missing.
pub(crate) fn is_garbled_if_given(text: &Option<Text>) -> bool
    ensures { result ≡ is_garbled_if_given text.now }
{
    text.as_ref().is_some_and(|text| is_garbled(text.as_str()))
}

// Whether a letter stands for what could not be read, or is the second of a pair.
fn is_odd(is_behind_lead: bool, letter: char) -> bool
    ensures { result ≡ is_odd is_behind_lead letter }
{
    letter == '\u{FFFD}' || is_behind_lead && '\u{80}' <= letter && letter <= '\u{BF}'
}

// Whether a letter is one as which the first of the two bytes of a letter is read.
fn is_lead(letter: char) -> bool
    ensures { result ≡ is_lead letter }
{
    letter == '\u{C2}' || letter == '\u{C3}'
}

// Whether an address begins with neither scheme of the web.
pub(crate) fn lacks_scheme(url: &str) -> bool
    ensures { result ≡ lacks_scheme url.now }
{
    let url = url.as_bytes();
    !(url.starts_with(b"http://") || url.starts_with(b"https://"))
}

// Whether a text has more than so many characters.
pub(crate) fn has_more_characters(count: usize, text: &str) -> bool
    ensures { result ≡ has_more_characters count text.now }
{
    count < text.chars().count()
}

// Whether a long name begins with the short one, and there a word ends.
pub(crate) fn repeats(short: &str, long: &str) -> bool
    ensures { result ≡ repeats short.now long.now }
{
    let (short, long) = (short.as_bytes(), long.as_bytes());
    long.starts_with(short) && ends_a_word(&long[short.len()..])
}

// Whether nothing follows, or an ASCII character that is no letter and no digit.
fn ends_a_word(rest: &[u8]) -> bool
    ensures { result ≡ ends_a_word rest.now }
{
    match rest {
        [] => true,
        [byte, ..] => byte.is_ascii() && !byte.is_ascii_alphanumeric(),
    }
}
