ghost use Rattle.std.specs.Prelude.{IfErr, OnOk};
ghost use Rattle.std.specs.Io.KnownBytes.{Appends};
ghost use Rattle.gtfs_devices.specs.Disk.{RefusesStore};

use crate::folders::FolderFault;
use std::io::Write;

// Hands all bytes to a writer, and flushes it. At a fault of the writer it answers Write.
pub(crate) fn write_whole<F: Write>(file: &mut F, bytes: &[u8]) -> Result<(), FolderFault>
    ensures whole { OnOk result (Appends (F.contents file.old) (F.contents file.new) bytes.now) }
    ensures faults { IfErr result RefusesStore }
{
    if file.write_all(bytes).is_err() || file.flush().is_err() {
        return Err(FolderFault::Write);
    }
    Ok(())
}
