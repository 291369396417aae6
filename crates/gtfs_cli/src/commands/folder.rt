ghost use Rattle.std.specs.Prelude.{◌<◌, ℕ, length, Option, IfOk, IfErr};
ghost use Rattle.gtfs_devices.specs.Folder.{CountsFault, Store};
ghost use Rattle.gtfs_table.specs.TablesRead.{RefusesDataset};
ghost use Rattle.gtfs_cli.specs.ReadingCauses.{IsFileCause, IsPathCause, IsTablesCause};
ghost use Rattle.gtfs_cli.specs.FilesInFolders.{HoldsTables};
ghost use Rattle.gtfs_cli.specs.FolderCalls.{Reads};
ghost use Rattle.gtfs_cli.specs.Refusals.{TellsFolders};

use crate::commands::refusal::Refusal;
use crate::devices_seen::FoldersSeen;
use gtfs_table::{FolderFault, Folders, Tables};
use std::alloc::Global;

// The tables of a folder, with the fields of stop_times.txt in the memory of these bytes, which are
// let go. An empty text names no folder.
// Errors: `NotThere`, `Unreadable`, `OverLimit` and `OutOfMemory`.
pub(crate) fn read_tables<'w, F: Folders>(
    alloc: Global,
    folders: &mut F,
    dir: &'w str,
    memory: Vec<u8>,
) -> Result<Tables, Refusal<'w>>
    ensures whole { IfOk result (HoldsTables (F.limit folders.old) (F.held folders.old) dir.now) }
    ensures refused { IfErr result (IsTablesCause (F.limit folders.old) (F.held folders.old) dir.now
        (F.failure_count folders.old) (F.failure_count folders.new)) }
    ensures reads { Reads 10 (⟦<F as FoldersSeen>⟧.seen folders.old)
        (⟦<F as FoldersSeen>⟧.seen folders.new) result }
{
    if dir.is_empty() {
        return Err(Refusal::NotThere(dir));
    }
    match Tables::read_in(alloc, folders, dir, memory) {
        Ok(tables) => Ok(tables),
        Err(fault) => Err(of_folder(fault, dir)),
    }
}

// What a fault of the folders means for the path that was asked for.
pub(crate) fn of_folder(fault: FolderFault, path: &str) -> Refusal<'_>
    ensures file { (limit : ℕ) (held : Option Store) (before after : ℕ)
        → IsFileCause limit held path.now before after fault
        → IsPathCause limit held path.now before after result }
    ensures tables { (limit : ℕ) (held : Option Store) (before after : ℕ)
        → 0 < length path.now → RefusesDataset fault limit held path.now before after
        → CountsFault fault before after
        → IsTablesCause limit held path.now before after result }
    ensures told { (before after : ℕ) → CountsFault fault before after
        → TellsFolders before after result }
{
    match fault {
        FolderFault::NoFolder => Refusal::NotThere(path),
        FolderFault::Read | FolderFault::Write => Refusal::Unreadable(path),
        FolderFault::TooLarge => Refusal::OverLimit(path),
        FolderFault::OutOfMemory => Refusal::OutOfMemory,
    }
}
