ghost use Rattle.std.specs.Prelude.{◌≡◌, ◌≤◌, ◌⊎◌, ℕ, List, Option, IfOk, IfSome, OnErr, OnOk};
ghost use Rattle.std.specs.Io.KnownBytes.{Keeps};
ghost use Rattle.gtfs_devices.specs.Device.{counted};
ghost use Rattle.gtfs_conversation.specs.Conversation.{Asks, Hears};

use gtfs_devices::{Failed, Out};
use thiserror::Error;

/// The input could not be read. The count of its failures rose.
#[derive(Clone, Copy, Debug, PartialEq, Eq, Error)]
#[error("input cannot be read")]
pub struct InputFailed;

/// An input of lines, beside the output on which they are answered.
///
/// A line is asked for only where nothing that was said waits in a buffer of the output. The input
/// keeps how much had gone out each time, so that a contract can say what was answered before what
/// was read.
///
/// Which lines wait may be unknown, as of a terminal: the clauses on lines say nothing then.
pub trait Input<O: Out> {
    // The lines that will be heard from here on, where they are known.
    ghost waiting: { Self → Option (List (List ℕ)) };

    // The line that was heard last.
    ghost heard: { Self → List ℕ };

    // How many bytes had gone out each time that a line was asked for, where that is known.
    ghost asked: { Self → Option (List ℕ) };

    ghost failure_count: { Self → ℕ };

    // That nothing of the output waits in a buffer.
    ghost is_sent: { Self → O → Type 0 };

    /// Sends on what waits in a buffer of the output.
    ///
    /// # Errors
    /// `Failed` where the output failed, which counts as one failure of it.
    fn send(&mut self, out: &mut O) -> Result<(), Failed>
        ensures kept { Keeps (O.told out.old) (O.told out.new) }
        ensures sent { OnOk result (is_sent self.new out.new) }
        ensures counted { OnErr result (O.failure_count out.new ≡ counted (O.failure_count out.old)) }
        ensures grows { O.failure_count out.old ≤ O.failure_count out.new }
        ensures no_failure { OnOk result (O.failure_count out.new ≡ O.failure_count out.old) }
        ensures waiting { waiting self.new ≡ waiting self.old }
        ensures asked { asked self.new ≡ asked self.old }
        ensures unfailing { failure_count self.new ≡ failure_count self.old };

    /// Waits for the next line, and answers whether there is one.
    ///
    /// # Errors
    /// `InputFailed` where the input could not be read, which counts as one failure of it. It may
    /// have failed before it asked.
    fn hear(&mut self, out: &O) -> Result<bool, InputFailed>
        requires { is_sent self.old out.now }
        ensures line { IfOk result (λ more. IfSome (waiting self.old)
            (λ lines. Hears more lines (heard self.new) (waiting self.new))) }
        ensures order { OnOk result (Asks (O.told out.now) (asked self.old) (asked self.new)) }
        ensures refused { OnErr result (Asks (O.told out.now) (asked self.old) (asked self.new)
            ⊎ (asked self.new ≡ asked self.old)) }
        ensures counted { OnErr result (failure_count self.new ≡ counted (failure_count self.old)) }
        ensures no_failure { OnOk result (failure_count self.new ≡ failure_count self.old) };

    /// The line that was heard last, without its end.
    fn line(&self) -> &[u8]
        ensures { result.now ≡ heard self.now };
}
