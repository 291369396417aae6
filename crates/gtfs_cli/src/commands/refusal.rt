ghost use Rattle.std.specs.Prelude.{◌≡◌};
ghost use Rattle.gtfs_cli.specs.Refusals.{status_of};

mod message;

use crate::commands::boards::RequestFault;
use gtfs_field::OutOfMemory;
use gtfs_table::OutFault;

// Why a command was not done. Paths are as they stand in the words.
#[derive(Drop)]
pub(crate) enum Refusal<'w> {
    // The words are not as the usage wants them: `clap`'s text.
    Words(String),
    // The value of this option is bad.
    BadValue(&'static str),
    // A day is given to a check, and no advice is asked for.
    DayWithoutAdvice,
    // There is no such folder or file.
    NotThere(&'w str),
    // The folder or the file cannot be read.
    Unreadable(&'w str),
    // The file, or one of the folder's files, is over the limit.
    OverLimit(&'w str),
    // What the folder holds is no feed, or one with errors.
    HasErrors(&'w str),
    // The file is no zone file.
    NoZone(&'w str),
    // The feed has no stop of the id.
    UnknownStop,
    // The feed has no route of the id.
    UnknownRoute,
    // The board would end before it begins.
    UntilBeforeFrom,
    // A line of the file of requests is at fault.
    Line(RequestFault),
    // The zones of the feeds that are to be merged have different names.
    ZonesDiffer,
    // Some file of the merged feed would be over the limit.
    MergeTooLarge,
    // The folder, or a file in it, cannot be written.
    Unwritable(&'w str),
    // The input of requests cannot be read.
    InputFailed,
    // The output did not take all that was to go out.
    OutputFailed,
    // Memory ran out.
    OutOfMemory,
}

impl From<OutOfMemory> for Refusal<'_> {
    ghost use Rattle.std.specs.Prelude.{◌≡◌};
    ghost use Rattle.gtfs_cli.specs.declared.commands.refusal.Refusal.TheVariants.{OutOfMemory as no_memory};

    ghost from_gives = { λ _ refusal. refusal ≡ no_memory };

    fn from(_refused: OutOfMemory) -> Self {
        Refusal::OutOfMemory
    }
}

impl From<OutFault> for Refusal<'_> {
    ghost use Rattle.std.specs.Prelude.{◌≡◌};
    ghost use Rattle.gtfs_cli.specs.declared.commands.refusal.Refusal.TheVariants.{OutputFailed as failed};

    ghost from_gives = { λ _ refusal. refusal ≡ failed };

    fn from(_fault: OutFault) -> Self {
        Refusal::OutputFailed
    }
}

impl Refusal<'_> {
    // The status with which the program ends.
    pub(crate) fn status(&self) -> u8
        ensures { result ≡ status_of self.now }
    {
        match self {
            Refusal::HasErrors(_)
            | Refusal::UnknownStop
            | Refusal::UnknownRoute
            | Refusal::ZonesDiffer
            | Refusal::MergeTooLarge => 1,
            Refusal::Words(_)
            | Refusal::BadValue(_)
            | Refusal::DayWithoutAdvice
            | Refusal::UntilBeforeFrom => 2,
            Refusal::NotThere(_)
            | Refusal::Unreadable(_)
            | Refusal::OverLimit(_)
            | Refusal::NoZone(_)
            | Refusal::Unwritable(_)
            | Refusal::InputFailed
            | Refusal::OutputFailed => 3,
            Refusal::Line(fault) => fault.status(),
            Refusal::OutOfMemory => 4,
        }
    }
}
