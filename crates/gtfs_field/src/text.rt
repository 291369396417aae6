ghost use Rattle.std.specs.Prelude.{◌≡◌, ◌==◌, IfOk, length, string_bytes};

use crate::OutOfMemory;
use arrayvec::ArrayString;
use std::alloc::Global;
use std::marker::Model;

// How many bytes of a short text lie in the value itself: most ids and names have no more.
const SHORT: usize = 24;

/// A text that owns its bytes, as public records hold it: contracts see the bytes in order.
///
/// Of a text that was copied up to 24 bytes lie in the value itself,
/// so that whoever reads a record has them at hand.
#[derive(Debug, Drop)]
pub struct Text {
    bytes: Bytes,
}

#[derive(Debug, Drop)]
enum Bytes {
    Short(ArrayString<SHORT>),
    Long(String),
}

impl Model for Text {
    ghost use Rattle.std.specs.Prelude.{List, ℕ};
    ghost use Rattle.gtfs_field.specs.Texts.{bytes_of};

    ghost Value = { List ℕ };

    ghost view = { λ t. bytes_of t.bytes };
}

impl Text {
    /// The text of this string. It takes no memory.
    pub fn new(text: String) -> Text
        ensures { result ≡ string_bytes text }
    {
        Text {
            bytes: Bytes::Long(text),
        }
    }

    /// A copy of a text. One of up to 24 bytes takes no memory.
    ///
    /// # Errors
    /// `OutOfMemory` where memory is refused.
    pub fn copy_of(alloc: Global, text: &str) -> Result<Text, OutOfMemory>
        ensures { IfOk result (λ copy. copy ≡ text.now) }
    {
        let bytes = match ArrayString::from(text) {
            Ok(short) => Bytes::Short(short),
            Err(_) => Bytes::Long(String::from_str(alloc, text)?),
        };
        Ok(Text { bytes })
    }

    /// Lends the text.
    pub fn as_str(&self) -> &str
        ensures { result.now ≡ self.now }
    {
        match &self.bytes {
            Bytes::Short(short) => short.as_str(),
            Bytes::Long(long) => long.as_str(),
        }
    }

    /// How many bytes the text has.
    pub fn len(&self) -> usize
        ensures { result ≡ length self.now }
    {
        self.as_str().len()
    }

    /// Whether the text has no bytes.
    pub fn is_empty(&self) -> bool
        ensures { result ≡ (length self.now == 0) }
    {
        self.as_str().is_empty()
    }
}
