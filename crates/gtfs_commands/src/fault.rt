//! Why words name no command.
ghost use Rattle.std.specs.Prelude.{◌≡◌};
ghost use Rattle.clap.specs.Words.{kind_of};
ghost use Rattle.gtfs_commands.specs.HelpAndRefusals.{no_memory, IsToldOf};

use clap::error::{Error, ErrorKind};
pub(super) use std::alloc::AllocError as OutOfMemory;
use std::alloc::Global;

/// Why the words name no command.
#[derive(Drop)]
pub enum WordsFault {
    /// The words are not as the usage wants them: `clap`'s text, for the error output.
    Refused(String),
    /// Help was asked for: `clap`'s text, for the output.
    Help(String),
    /// The version was asked for: `clap`'s text, for the output.
    Version(String),
    /// Memory ran out.
    OutOfMemory,
}

impl From<OutOfMemory> for WordsFault {
    ghost from_gives = { λ _ fault. fault ≡ no_memory };

    fn from(_refused: OutOfMemory) -> WordsFault {
        WordsFault::OutOfMemory
    }
}

// What is said of words that `clap` does not take.
pub(super) fn fault_of(alloc: Global, error: &Error) -> WordsFault
    ensures { IsToldOf (kind_of error.now) result }
{
    if error.kind() == ErrorKind::OutOfMemory {
        return WordsFault::OutOfMemory;
    }
    match format!(in alloc; "{error}") {
        Ok(text) if error.kind() == ErrorKind::DisplayHelp => WordsFault::Help(text),
        Ok(text) if error.kind() == ErrorKind::DisplayVersion => WordsFault::Version(text),
        Ok(text) => WordsFault::Refused(text),
        Err(_) => WordsFault::OutOfMemory,
    }
}
