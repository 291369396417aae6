ghost use Rattle.std.specs.Prelude.{IfOk, IfErr};
ghost use Rattle.gtfs_cli.specs.ReadingCauses.{IsPathCause};
ghost use Rattle.gtfs_cli.specs.FilesInFolders.{HoldsBytes};
ghost use Rattle.gtfs_cli.specs.FolderCalls.{Reads};

use crate::commands::folder::of_folder;
use crate::commands::paths::cut_path;
use crate::commands::refusal::Refusal;
use crate::devices_seen::FoldersSeen;
use gtfs_table::Folders;
use std::alloc::Global;

// The bytes of the file of a path, no more than the folders' limit. A path that ends in `/` names
// no file. Errors: `NotThere`, `Unreadable`, `OverLimit` and `OutOfMemory`.
pub(crate) fn read_file<'w, F: Folders>(
    alloc: Global,
    folders: &mut F,
    path: &'w str,
) -> Result<Vec<u8>, Refusal<'w>>
    ensures read { IfOk result (λ bytes. HoldsBytes (F.limit folders.old) (F.held folders.old)
        path.now bytes.items) }
    ensures refused { IfErr result (IsPathCause (F.limit folders.old) (F.held folders.old) path.now
        (F.failure_count folders.old) (F.failure_count folders.new)) }
    ensures reads { Reads 1 (⟦<F as FoldersSeen>⟧.seen folders.old)
        (⟦<F as FoldersSeen>⟧.seen folders.new) result }
{
    let (folder, name) = cut_path(path);
    if name.is_empty() {
        return Err(Refusal::Unreadable(path));
    }
    match folders.read(alloc, folder, name) {
        Ok(Some(bytes)) => Ok(bytes),
        Ok(None) => Err(Refusal::NotThere(path)),
        Err(fault) => Err(of_folder(fault, path)),
    }
}
