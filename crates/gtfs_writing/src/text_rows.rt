ghost use Rattle.std.specs.Prelude.{◌≡◌, ◌++◌, [], OnOk, encode_utf8, string_bytes};
ghost use Rattle.std.specs.Str.{IsUtf8};
ghost use Rattle.csv.specs.Writing.{default_writer, escaped, field_text, quoted};
ghost use Rattle.gtfs_writing.specs.TakenRecords.{into_text};

use crate::digits::{as_text, choices, choices_with_timepoint};
use crate::quoting::is_quoted;
use crate::sink::Sink;
use gtfs_field::OutOfMemory;
use gtfs_rows::{DropOffType, PickupType, Timepoint};
use std::marker::Model;

// Rows as the text of a file:
// a comma between fields, quotes only where a field needs them, and LF after each row.
pub(crate) struct TextRows {
    text: String,
}

impl Model for TextRows {
    ghost use Rattle.std.specs.Prelude.{List, ℕ, string_bytes};

    ghost Value = { List ℕ };

    ghost view = { λ t. string_bytes t.text };
}

impl TextRows {
    // None yet, and room for a text of this many bytes, in the memory that is handed in.
    // Where more is refused, the text grows as it is made.
    pub(crate) fn in_memory(memory: Vec<u8>, bytes: usize) -> TextRows
        ensures { result ≡ [] }
    {
        let mut text = empty_text(memory);
        let _ = text.reserve_exact(bytes);
        TextRows { text }
    }

    pub(crate) fn into_text(self) -> String
        ensures { string_bytes result ≡ self }
    {
        let TextRows { text } = self;
        text
    }
}

impl Sink for TextRows {
    ghost takes = { into_text };

    fn first(&mut self, field: &str) -> Result<(), OutOfMemory> {
        push_field(&mut self.text, field)
    }

    fn next(&mut self, field: &str) -> Result<(), OutOfMemory> {
        self.text.push_str(",")?;
        push_field(&mut self.text, field)
    }

    fn plain_first(&mut self, field: &str) -> Result<(), OutOfMemory> {
        self.text.push_str(field)?;
        Ok(())
    }

    fn plain(&mut self, field: &str) -> Result<(), OutOfMemory> {
        self.text.push_str(",")?;
        self.text.push_str(field)?;
        Ok(())
    }

    fn plain_with_comma(&mut self, bytes: &[u8]) -> Result<(), OutOfMemory> {
        self.text.push_str(as_text(bytes))?;
        Ok(())
    }

    fn last(&mut self) -> Result<(), OutOfMemory> {
        self.text.push_str("\n")?;
        Ok(())
    }

    // In one piece: a text is made row by row of millions of stop times.
    #[inline(always)]
    fn choices(
        &mut self,
        pickup: PickupType,
        drop_off: DropOffType,
        timepoint: Option<Timepoint>,
    ) -> Result<(), OutOfMemory> {
        match timepoint {
            Some(timepoint) => {
                let bytes = choices_with_timepoint(pickup, drop_off, timepoint);
                self.text.push_str(as_text(&bytes))
            }
            None => self.text.push_str(as_text(&choices(pickup, drop_off))),
        }
    }
}

// No text yet, in the memory of these bytes.
fn empty_text(memory: Vec<u8>) -> String
    ensures { string_bytes result ≡ [] }
{
    let mut bytes = memory;
    bytes.clear();
    String::from_utf8(bytes).unwrap()
}

fn push_field(text: &mut String, field: &str) -> Result<(), OutOfMemory>
    ensures { OnOk result
        (string_bytes text.new ≡ string_bytes text.old ++ field_text default_writer field.now) }
{
    if is_quoted(field) {
        push_quoted(text, field)
    } else {
        text.push_str(field)
    }
}

fn push_quoted(text: &mut String, field: &str) -> Result<(), OutOfMemory>
    ensures { OnOk result
        (string_bytes text.new ≡ string_bytes text.old ++ quoted default_writer field.now) }
{
    text.push_str("\"")?;
    push_escaped(text, field)?;
    text.push_str("\"")
}

fn push_escaped(text: &mut String, field: &str) -> Result<(), OutOfMemory>
    ensures { OnOk result
        (string_bytes text.new ≡ string_bytes text.old ++ escaped default_writer field.now) }
{
    for c in field.chars() {
        push_doubled(text, c)?;
    }
    Ok(())
}

// A quote twice, and any other character once.
fn push_doubled(text: &mut String, c: char) -> Result<(), OutOfMemory>
    ensures { OnOk result (string_bytes text.new
        ≡ string_bytes text.old ++ escaped default_writer (encode_utf8 c)) }
{
    if c == '"' {
        text.push_str("\"\"")
    } else {
        text.push(c)
    }
}
