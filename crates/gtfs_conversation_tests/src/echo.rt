//! What answers with the line and LF.
ghost use Rattle.std.specs.Prelude.{◌≡◌, ◌≤◌, ◌++◌, ◌∷◌, [], ℕ, List, OnOk, OnErr};
ghost use Rattle.std.specs.Io.KnownBytes.{Appends};
ghost use Rattle.gtfs_devices.specs.Device.{counted};

use gtfs_conversation::Answer;
use gtfs_devices::{Failed, Out, write_text};

#[derive(Drop)]
pub(crate) struct Echo;

impl Answer for Echo {
    ghost use Rattle.std.specs.Prelude.{◌≡◌, ◌++◌, ◌∷◌, [], ⊤};

    ghost is_answer = { λ _ line text. text ≡ line ++ 10 ∷ [] };

    ghost is_part = { λ _ _ _. ⊤ };

    fn answer<O: Out>(&self, line: &[u8], out: &mut O) -> Result<(), Failed> {
        say(out, line)?;
        say(out, b"\n")
    }
}

fn say<O: Out>(out: &mut O, text: &[u8]) -> Result<(), Failed>
    ensures whole { OnOk result (Appends (O.told out.old) (O.told out.new) text.now) }
    ensures part { OnErr result ((part : List ℕ) × Appends (O.told out.old) (O.told out.new) part) }
    ensures counted { OnErr result (O.failure_count out.new ≡ counted (O.failure_count out.old)) }
    ensures grows { O.failure_count out.old ≤ O.failure_count out.new }
    ensures no_failure { OnOk result (O.failure_count out.new ≡ O.failure_count out.old) }
{
    match write_text(out, text) {
        Ok(()) => Ok(()),
        Err(_) => Err(Failed),
    }
}
