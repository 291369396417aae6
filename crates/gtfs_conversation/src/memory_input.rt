ghost use Rattle.std.specs.Prelude.{◌≡◌, ◌-◌, [], map, drop, length, slice_index_or, Some};

use crate::input::{Input, InputFailed};
use gtfs_devices::{Failed, MemoryOut};
use std::alloc::Global;
use std::marker::Model;

/// An input of lines in memory, beside an output in memory. Where one is wanted, a hearing fails.
///
/// It notes how many bytes had gone out each time that a line was asked for.
#[derive(Debug, Drop)]
pub struct MemoryInput<'a> {
    lines: &'a [&'a [u8]],
    heard: usize,
    asked: Vec<usize>,
    sent: usize,
    failing: Option<usize>,
    failures: u64,
}

impl<'a> Model for MemoryInput<'a> {
    ghost use Rattle.std.specs.Prelude.{map};
    ghost use Rattle.gtfs_conversation.specs.ScriptedTalk.{Script};

    ghost Value = { Script };

    ghost view = { λ input. record {
      lines = map (λ l. l.now) input.lines.now;
      heard = input.heard;
      asked = input.asked.items;
      sent = input.sent;
      failing = input.failing;
      failures = input.failures;
    } };
}

impl<'a> MemoryInput<'a> {
    /// An input of these lines, of which none was heard yet. The hearing with this number, from 1,
    /// fails. It takes no memory.
    pub fn new(alloc: Global, lines: &'a [&'a [u8]], failing: Option<usize>) -> MemoryInput<'a>
        ensures { result ≡ record {
          lines = map (λ l. l.now) lines.now;
          heard = 0;
          asked = [];
          sent = 0;
          failing = failing;
          failures = 0;
        } }
    {
        MemoryInput {
            lines,
            heard: 0,
            asked: Vec::new(alloc),
            sent: 0,
            failing,
            failures: 0,
        }
    }

    /// How many bytes had gone out each time that a line was asked for.
    pub fn asked(&self) -> &[usize]
        ensures { result.now ≡ self.now.asked }
    {
        self.asked.as_slice()
    }
}

impl Input<MemoryOut> for MemoryInput<'_> {
    ghost use Rattle.std.specs.Prelude.{Some, ◌≡◌, length};
    ghost use Rattle.gtfs_conversation.specs.ScriptedTalk.{lines_left, last_heard};

    ghost waiting = { λ input. Some (lines_left input) };

    ghost heard = { last_heard };

    ghost asked = { λ input. Some input.asked };

    ghost failure_count = { λ input. input.failures };

    ghost is_sent = { λ input out. input.sent ≡ length out.text };

    /// Never fails.
    fn send(&mut self, out: &mut MemoryOut) -> Result<(), Failed> {
        self.sent = out.bytes().len();
        Ok(())
    }

    /// Fails also where memory is refused: then it did not ask.
    fn hear(&mut self, out: &MemoryOut) -> Result<bool, InputFailed> {
        let noted = self.asked.push(out.bytes().len());
        if noted.is_err() || self.failing == Some(self.asked.len()) {
            self.failures = self.failures.saturating_add(1);
            return Err(InputFailed);
        }
        if self.heard >= self.lines.len() {
            return Ok(false);
        }
        self.heard += 1;
        Ok(true)
    }

    fn line(&self) -> &[u8] {
        match self.lines.get(self.heard.saturating_sub(1)) {
            Some(line) => line,
            None => b"",
        }
    }
}
