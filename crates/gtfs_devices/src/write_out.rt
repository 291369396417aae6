ghost use Rattle.std.specs.Prelude.{◌≡◌, ◌<◌, ◌≤◌, [], length, take, IfOk, IfSome, MatchOption, OnOk, OnErr};
ghost use Rattle.std.specs.Io.Buffered.{writer_buffer, writer_contents};
ghost use Rattle.std.specs.Io.KnownBytes.{Appends, Keeps};
ghost use Rattle.gtfs_devices.specs.Device.{Rises, counted};

use crate::output::{Failed, Out};
use std::io::{BufWriter, ErrorKind, Write};
use std::marker::Model;

/// An output that hands its text to a writer, as a file or a terminal,
/// and tells of it what the writer tells.
#[derive(Debug, Drop)]
pub struct WriteOut<W: Write> {
    writer: W,
    failures: u64,
}

impl<W: Write> Model for WriteOut<W> {
    ghost use Rattle.std.specs.Prelude.{ℕ};

    ghost Value = { W × ℕ };

    ghost view = { λ out. (out.writer, out.failures) };
}

impl<W: Write> WriteOut<W> {
    /// An output over this writer, which has not failed yet.
    pub fn new(writer: W) -> WriteOut<W>
        ensures { result ≡ (writer, 0) }
    {
        WriteOut {
            writer,
            failures: 0,
        }
    }

    /// Flushes the writer.
    ///
    /// # Errors
    /// `Failed` where the writer failed, which counts as a failure.
    pub fn flush(&mut self) -> Result<(), Failed>
        ensures kept { Keeps (W.contents self.old.0) (W.contents self.new.0) }
        ensures ok { OnOk result (self.new.1 ≡ self.old.1) }
        ensures err { OnErr result (self.new.1 ≡ counted self.old.1) }
    {
        match self.writer.flush() {
            Ok(()) => Ok(()),
            Err(_) => Err(self.fail()),
        }
    }

    fn fail(&mut self) -> Failed
        ensures kept { self.new.0 ≡ self.old.0 }
        ensures count { self.new.1 ≡ counted self.old.1 }
        ensures grows { self.old.1 ≤ self.new.1 }
    {
        self.failures = self.failures.saturating_add(1);
        Failed
    }
}

impl<W: Write + Drop> WriteOut<BufWriter<W>> {
    /// Flushes the buffer: then nothing is left in it, and its writer was handed all that the
    /// buffer took. That writer is flushed too.
    ///
    /// # Errors
    /// `Failed` where the writer failed, which counts as a failure.
    pub fn flush_buffer(&mut self) -> Result<(), Failed>
        ensures empty { OnOk result (writer_buffer self.new.0 ≡ []) }
        ensures kept { Keeps (writer_contents W.contents self.old.0)
            (writer_contents W.contents self.new.0) }
        ensures ok { OnOk result (self.new.1 ≡ self.old.1) }
        ensures err { OnErr result (self.new.1 ≡ counted self.old.1) }
    {
        if self.writer.flush().is_err() {
            return Err(self.fail());
        }
        Ok(())
    }
}

impl<W: Write> Out for WriteOut<W> {
    ghost told = { λ out. W.contents out.0 };

    ghost failure_count = { λ out. out.1 };

    ghost fails = { λ old new. Keeps (W.contents old.0) (W.contents new.0) × (new.1 ≡ counted old.1) };

    /// Hands the text to the writer once, and again where a signal interrupted it. A writer that
    /// takes nothing of a text that has bytes fails.
    fn write(&mut self, text: &[u8]) -> Result<usize, Failed>
        ensures taken { IfOk result
            (λ n. Appends (W.contents self.old.0) (W.contents self.new.0) (take n text.now)) }
        ensures within { IfOk result (λ n. n ≤ length text.now) }
        ensures moves { IfOk result (λ n. 0 < length text.now → 0 < n) }
        ensures nothing { OnErr result (Keeps (W.contents self.old.0) (W.contents self.new.0)) }
        ensures counted { OnErr result (Rises self.old.1 self.new.1) }
        ensures once { OnErr result (self.new.1 ≡ counted self.old.1) }
        ensures failed { OnErr result
            (Keeps (W.contents self.old.0) (W.contents self.new.0)
            × (self.new.1 ≡ counted self.old.1)) }
        ensures grows { self.old.1 ≤ self.new.1 }
        ensures no_failure { OnOk result (self.new.1 ≡ self.old.1) }
    {
        match write_some(&mut self.writer, text) {
            Some(count) => Ok(count),
            None => Err(self.fail()),
        }
    }

    fn failures(&self) -> u64 {
        self.failures
    }
}

// One write that no signal interrupts: how much the writer took, or None where it failed.
fn write_some<W: Write>(writer: &mut W, text: &[u8]) -> Option<usize>
    ensures taken { MatchOption result
        (Keeps (W.contents writer.old) (W.contents writer.new))
        (λ n. Appends (W.contents writer.old) (W.contents writer.new) (take n text.now)) }
    ensures within { IfSome result (λ n. n ≤ length text.now) }
    ensures moves { IfSome result (λ n. 0 < length text.now → 0 < n) }
{
    for _ in 0..u64::MAX {
        match writer.write(text) {
            Ok(0) if !text.is_empty() => return None,
            Ok(count) => return Some(count),
            Err(fault) if fault.kind() == ErrorKind::Interrupted => {}
            Err(_) => return None,
        }
    }
    None
}
