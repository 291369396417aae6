ghost use Rattle.std.specs.Prelude.{◌≡◌, ◌<◌, ◌≤◌, length, IfSome, OnOk, OnErr};
ghost use Rattle.std.specs.Io.KnownBytes.{Appends};
ghost use Rattle.std.specs.List.{position_from};
ghost use Rattle.gtfs_table.specs.Blanks.{is_control};
ghost use Rattle.gtfs_devices.specs.Device.{Rises};
ghost use Rattle.gtfs_schema.specs.FieldValues.{plain};
ghost use Rattle.gtfs_cli.specs.RefusalMessages.{line_of, message, HasLine};
ghost use Rattle.gtfs_cli.specs.SentText.{SendsBeginning};

use crate::commands::refusal::Refusal;
use gtfs_table::{Out, OutFault, write_text};
use itoa::Buffer;

impl Refusal<'_> {
    // Writes what is told of the refusal: `clap`'s text, or a line that begins `gtfs: `.
    // It takes no memory.
    pub(crate) fn write<E: Out>(&self, err: &mut E) -> Result<(), OutFault>
        ensures whole { OnOk result (Appends (E.told err.old) (E.told err.new) (message self.now)) }
        ensures cut_short { OnErr result (SendsBeginning (E.told err.old) (E.told err.new)
            (message self.now)) }
        ensures counted { OnErr result (Rises (E.failure_count err.old) (E.failure_count err.new)) }
        ensures grows { E.failure_count err.old ≤ E.failure_count err.new }
    {
        match self {
            Refusal::Words(text) => write_text(err, text.as_bytes()),
            Refusal::Line(fault) => {
                write_line(err, fault.text(), Buffer::new().format(fault.line()))
            }
            _ => {
                let (first, second) = self.line_texts();
                write_line(err, first, second)
            }
        }
    }

    // The two texts of the line, after `gtfs: `, where neither is made: for refused words
    // `clap`'s text stands in place of a line, and the number of a line of a file of
    // requests is written by `write`.
    fn line_texts(&self) -> (&str, &str)
        ensures { HasLine self.now result.0.now result.1.now }
    {
        match self {
            Refusal::Words(_) | Refusal::Line(_) => ("", ""),
            Refusal::BadValue(option) => ("bad value of ", option),
            Refusal::DayWithoutAdvice => ("--day needs --advise", ""),
            Refusal::NotThere(path) => (path, " is not there"),
            Refusal::Unreadable(path) => (path, " cannot be read"),
            Refusal::OverLimit(path) => (path, " holds a file over the limit"),
            Refusal::HasErrors(path) => (path, " has errors"),
            Refusal::NoZone(path) => (path, " is no zone file"),
            Refusal::UnknownStop => ("unknown stop", ""),
            Refusal::UnknownRoute => ("unknown route", ""),
            Refusal::UntilBeforeFrom => ("until lies before from", ""),
            Refusal::ZonesDiffer => ("zones differ", ""),
            Refusal::MergeTooLarge => ("merged feed too large", ""),
            Refusal::Unwritable(path) => (path, " cannot be written"),
            Refusal::InputFailed => ("input cannot be read", ""),
            Refusal::OutputFailed => ("output failed", ""),
            Refusal::OutOfMemory => ("out of memory", ""),
        }
    }
}

// A line of two texts.
fn write_line<E: Out>(err: &mut E, first: &str, second: &str) -> Result<(), OutFault>
    ensures whole { OnOk result (Appends (E.told err.old) (E.told err.new)
        (line_of first.now second.now)) }
    ensures cut_short { OnErr result (SendsBeginning (E.told err.old) (E.told err.new)
        (line_of first.now second.now)) }
    ensures counted { OnErr result (Rises (E.failure_count err.old) (E.failure_count err.new)) }
    ensures grows { E.failure_count err.old ≤ E.failure_count err.new }
{
    write_text(err, b"gtfs: ")?;
    write_shown(err, first.as_bytes())?;
    write_shown(err, second.as_bytes())?;
    write_text(err, b"\n")
}

// A text with a space in place of each control character,
// so that it cannot end the line or move the cursor.
fn write_shown<E: Out>(err: &mut E, text: &[u8]) -> Result<(), OutFault>
    ensures whole { OnOk result (Appends (E.told err.old) (E.told err.new) (plain text.now)) }
    ensures cut_short { OnErr result (SendsBeginning (E.told err.old) (E.told err.new)
        (plain text.now)) }
    ensures counted { OnErr result (Rises (E.failure_count err.old) (E.failure_count err.new)) }
    ensures grows { E.failure_count err.old ≤ E.failure_count err.new }
{
    let mut rest = text;
    while let Some(at) = first_control(rest) {
        write_text(err, &rest[..at])?;
        write_text(err, b" ")?;
        rest = &rest[at + 1..];
    }
    write_text(err, rest)
}

// Where the first control character stands.
fn first_control(text: &[u8]) -> Option<usize>
    ensures index { result ≡ position_from is_control 0 text.now }
    ensures within { IfSome result (λ at. at < length text.now) }
{
    text.iter().position(|byte| byte.is_ascii_control())
}
