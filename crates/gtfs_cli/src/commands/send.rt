ghost use Rattle.std.specs.Prelude.{◌≡◌, IfErr};
ghost use Rattle.gtfs_cli.specs.SentText.{IsSent};
ghost use Rattle.gtfs_cli.specs.declared.commands.refusal.Refusal.TheVariants.{OutputFailed as output_failed};

use crate::commands::refusal::Refusal;
use crate::devices_seen::OutSeen;
use gtfs_table::{Out, write_text};

// Sends a text out.
// Errors: `OutputFailed`, and then a beginning of the text went out.
pub(crate) fn send<'w, O: Out>(text: &[u8], out: &mut O) -> Result<(), Refusal<'w>>
    ensures sent { IsSent text.now (⟦<O as OutSeen>⟧.seen out.old)
        (⟦<O as OutSeen>⟧.seen out.new) result }
    ensures failed { IfErr result (λ refusal. refusal ≡ output_failed) }
{
    match write_text(out, text) {
        Ok(()) => Ok(()),
        Err(_) => Err(Refusal::OutputFailed),
    }
}
