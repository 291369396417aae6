ghost use Rattle.std.specs.Prelude.{◌≡◌, ◌<◌, ◌≤◌, ℕ, List, Option, length, take, ⊤, IfOk, IfErr, OnOk, OnErr};
ghost use Rattle.std.specs.Io.KnownBytes.{Appends, Keeps};
ghost use Rattle.gtfs_devices.specs.Device.{counted, FailsLast, Rises};

use thiserror::Error;

/// The output took nothing. The count of failures rose.
#[derive(Clone, Copy, Debug, PartialEq, Eq, Error)]
#[error("output failed")]
pub struct Failed;

/// The output failed before the whole text went out. The count of failures rose.
#[derive(Clone, Copy, Debug, PartialEq, Eq, Error)]
#[error("output failed after {written} bytes")]
pub struct OutFault {
    /// How many bytes of the text went out, from its beginning.
    pub written: usize,
}

/// An output, which takes text in pieces of its own size and counts its failures.
///
/// A write that succeeds leaves the count of failures as it was, and one that fails counts once; a
/// count at 2^64 - 1 stays there and counts as risen. What went out may be unknown, as of a
/// terminal: the clauses on what went out say nothing then.
pub trait Out {
    ghost told: { Self → Option (List ℕ) };

    ghost failure_count: { Self → ℕ };

    // A write that failed led from the first state to the second.
    ghost fails: { Self → Self → Type 0 } = { λ _ _. ⊤ };

    /// Takes a beginning of the text, at least one byte where the text has any,
    /// and answers its length.
    ///
    /// # Errors
    /// `Failed` where the output failed; nothing of the text went out then.
    fn write(&mut self, text: &[u8]) -> Result<usize, Failed>
        ensures taken { IfOk result
            (λ n. Appends (told self.old) (told self.new) (take n text.now)) }
        ensures within { IfOk result (λ n. n ≤ length text.now) }
        ensures moves { IfOk result (λ n. 0 < length text.now → 0 < n) }
        ensures nothing { OnErr result (Keeps (told self.old) (told self.new)) }
        ensures counted { OnErr result (Rises (failure_count self.old) (failure_count self.new)) }
        ensures once { OnErr result (failure_count self.new ≡ counted (failure_count self.old)) }
        ensures failed { OnErr result (fails self.old self.new) }
        ensures grows { failure_count self.old ≤ failure_count self.new }
        ensures no_failure { OnOk result (failure_count self.new ≡ failure_count self.old) };

    /// How often the output failed, at most 2^64 - 1.
    fn failures(&self) -> u64
        ensures { result ≡ failure_count self.now };
}

/// Sends a whole text out. It takes no memory.
///
/// # Errors
/// `OutFault` where the output failed: it tells how many bytes went out, which are the first of the
/// text. Exactly one write failed, and it was the last.
pub fn write_text<O: Out>(out: &mut O, text: &[u8]) -> Result<(), OutFault>
    ensures whole { OnOk result (Appends (O.told out.old) (O.told out.new) text.now) }
    ensures prefix { IfErr result
        (λ fault. Appends (O.told out.old) (O.told out.new) (take fault.written text.now)) }
    ensures within { IfErr result (λ fault. fault.written < length text.now) }
    ensures counted { OnErr result (Rises (O.failure_count out.old) (O.failure_count out.new)) }
    ensures once { OnErr result (O.failure_count out.new ≡ counted (O.failure_count out.old)) }
    ensures last { OnErr result (FailsLast O.fails out.new) }
    ensures grows { O.failure_count out.old ≤ O.failure_count out.new }
    ensures no_failure { OnOk result (O.failure_count out.new ≡ O.failure_count out.old) }
{
    let mut written = 0;
    while written < text.len() {
        match out.write(&text[written..]) {
            Ok(count) => written += count,
            Err(Failed) => return Err(OutFault { written }),
        }
    }
    Ok(())
}
