ghost use Rattle.std.specs.Prelude.{◌≡◌, ◌≤◌, ℕ, List, OnOk, OnErr};
ghost use Rattle.std.specs.Io.KnownBytes.{Appends};
ghost use Rattle.gtfs_devices.specs.Device.{counted};

use gtfs_devices::{Failed, Out};

/// What answers lines.
pub trait Answer {
    // That a text is an answer of a line.
    ghost is_answer: { Self → List ℕ → List ℕ → Type 0 };

    // That this may have gone out of an answer of a line where the output failed.
    ghost is_part: { Self → List ℕ → List ℕ → Type 0 };

    /// Prints an answer to a line. A line that asks for nothing is answered too.
    ///
    /// # Errors
    /// `Failed` where the output failed, once: a part of an answer went out.
    fn answer<O: Out>(&self, line: &[u8], out: &mut O) -> Result<(), Failed>
        ensures whole { OnOk result ((text : List ℕ) × is_answer self.now line.now text
            × Appends (O.told out.old) (O.told out.new) text) }
        ensures part { OnErr result ((text : List ℕ) × is_part self.now line.now text
            × Appends (O.told out.old) (O.told out.new) text) }
        ensures counted { OnErr result (O.failure_count out.new ≡ counted (O.failure_count out.old)) }
        ensures grows { O.failure_count out.old ≤ O.failure_count out.new }
        ensures no_failure { OnOk result (O.failure_count out.new ≡ O.failure_count out.old) };
}
