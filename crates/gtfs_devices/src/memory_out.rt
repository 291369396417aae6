ghost use Rattle.std.specs.Prelude.{◌≡◌, ◌<◌, ◌≤◌, ◌-◌, ◌++◌, ◌↔◌, [], length, take, min, IfOk, OnOk, OnErr, IsErr, Some};
ghost use Rattle.std.specs.Io.KnownBytes.{Appends, Keeps};
ghost use Rattle.gtfs_devices.specs.Device.{Sent, Rises, counted};

use crate::output::{Failed, Out};
use gtfs_field::OutOfMemory;
use std::alloc::Global;
use std::marker::Model;

/// An output in memory with room for a number of bytes.
/// It fails where its room ends, after it has taken what still fitted.
#[derive(Debug, Drop)]
pub struct MemoryOut {
    text: Vec<u8>,
    left: usize,
    failures: u64,
}

impl Model for MemoryOut {
    ghost use Rattle.std.specs.Prelude.{vec_capacity, vec_len, ◌+◌, ◌≤◌};
    ghost use Rattle.gtfs_devices.specs.Device.{Sent};

    ghost Value = { Sent };

    ghost view = { λ out. record {
      text = out.text.items;
      left = out.left;
      failures = out.failures;
    } };

    ghost invariant = { λ out. vec_len out.text + out.left ≤ vec_capacity out.text };
}

impl MemoryOut {
    /// An output with room for this many bytes, to which nothing went out yet. It takes all its
    /// memory here.
    ///
    /// # Errors
    /// `OutOfMemory` where memory is refused.
    pub fn new(alloc: Global, room: usize) -> Result<MemoryOut, OutOfMemory>
        ensures { IfOk result (λ out. out ≡ record { text = []; left = room; failures = 0 }) }
    {
        Ok(MemoryOut {
            text: Vec::with_capacity(alloc, room)?,
            left: room,
            failures: 0,
        })
    }

    /// What went out.
    pub fn bytes(&self) -> &[u8]
        ensures { result.now ≡ self.now.text }
    {
        self.text.as_slice()
    }
}

impl Out for MemoryOut {
    ghost told = { λ out. Some out.text };

    ghost failure_count = { λ out. out.failures };

    ghost fails = { λ old new.
        (old.left ≡ 0) × (new ≡ record old { failures = counted old.failures }) };

    /// Takes as many bytes as still fit, at most the whole text.
    /// Fails exactly where the text has bytes and none fits.
    fn write(&mut self, text: &[u8]) -> Result<usize, Failed>
        ensures taken { IfOk result
            (λ n. Appends (Some self.old.text) (Some self.new.text) (take n text.now)) }
        ensures within { IfOk result (λ n. n ≤ length text.now) }
        ensures moves { IfOk result (λ n. 0 < length text.now → 0 < n) }
        ensures nothing { OnErr result (Keeps (Some self.old.text) (Some self.new.text)) }
        ensures counted { OnErr result (Rises self.old.failures self.new.failures) }
        ensures once { OnErr result (self.new.failures ≡ counted self.old.failures) }
        ensures failed { OnErr result
            ((self.old.left ≡ 0)
            × (self.new ≡ record self.old { failures = counted self.old.failures })) }
        ensures grows { self.old.failures ≤ self.new.failures }
        ensures no_failure { OnOk result (self.new.failures ≡ self.old.failures) }

        ensures fits { IfOk result (λ n. n ≡ min (length text.now) self.old.left) }
        ensures ok { IfOk result
            (λ n. self.new ≡ record {
              text = self.old.text ++ take n text.now;
              left = self.old.left - n;
              failures = self.old.failures;
            }) }
        ensures full { IsErr result ↔ ((0 < length text.now) × (self.old.left ≡ 0)) }
        ensures err { OnErr result
            (self.new ≡ record self.old { failures = counted self.old.failures }) }
    {
        let count = text.len().min(self.left);
        if count == 0 && !text.is_empty() {
            self.failures = self.failures.saturating_add(1);
            return Err(Failed);
        }
        if self.text.extend_from_slice(&text[..count]).is_err() {
            unreachable!();
        }
        self.left -= count;
        Ok(count)
    }

    fn failures(&self) -> u64 {
        self.failures
    }
}
