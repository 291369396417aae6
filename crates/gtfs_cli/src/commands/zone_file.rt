ghost use Rattle.std.specs.Prelude.{◌≡◌, ℕ, Option, IfOk, IfErr, OnOk};
ghost use Rattle.gtfs_days.specs.Zone.{IsZoneOf};
ghost use Rattle.gtfs_devices.specs.Folder.{Store};
ghost use Rattle.gtfs_cli.specs.ReadingCauses.{IsZoneCause};
ghost use Rattle.gtfs_cli.specs.FilesInFolders.{FitsZone, HoldsBytes, HoldsZone};
ghost use Rattle.gtfs_cli.specs.FolderCalls.{Reads};

use crate::commands::files::read_file;
use crate::commands::refusal::Refusal;
use crate::devices_seen::FoldersSeen;
use gtfs_days::{Zone, ZoneFault};
use gtfs_table::Folders;
use std::alloc::Global;

// The zone of the zone file of a path.
// Errors: `NotThere`, `Unreadable`, `OverLimit`, `NoZone` and `OutOfMemory`.
pub(crate) fn read_zone<'w, F: Folders>(
    alloc: Global,
    folders: &mut F,
    path: &'w str,
) -> Result<Zone, Refusal<'w>>
    ensures read { IfOk result (HoldsZone (F.limit folders.old) (F.held folders.old) path.now) }
    ensures refused { IfErr result (IsZoneCause (F.limit folders.old) (F.held folders.old) path.now
        (F.failure_count folders.old) (F.failure_count folders.new)) }
    ensures reads { Reads 1 (⟦<F as FoldersSeen>⟧.seen folders.old)
        (⟦<F as FoldersSeen>⟧.seen folders.new) result }
{
    let bytes = read_file(alloc, folders, path)?;
    zone_of(alloc, bytes.as_slice(), path)
}

// The zone of the bytes of the zone file.
fn zone_of<'w>(alloc: Global, bytes: &[u8], path: &'w str) -> Result<Zone, Refusal<'w>>
    ensures read { IfOk result (IsZoneOf bytes.now) }
    ensures fits { OnOk result (FitsZone bytes.now) }
    ensures refused { IfErr result
        (λ refusal. (limit : ℕ) (held : Option Store) (before after : ℕ)
        → HoldsBytes limit held path.now bytes.now → after ≡ before
        → IsZoneCause limit held path.now before after refusal) }
{
    match Zone::read(alloc, bytes) {
        Ok(zone) => Ok(zone),
        Err(ZoneFault::Unreadable) => Err(Refusal::NoZone(path)),
        Err(ZoneFault::OutOfMemory) => Err(Refusal::OutOfMemory),
    }
}
