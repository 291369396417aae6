ghost use Rattle.std.specs.Prelude.{◌≡◌, ◌≤◌, vec_len, IfOk, IfErr, IsErrOf, OnOk};
ghost use Rattle.gtfs_devices.specs.Folder.{IsByBytes};
ghost use Rattle.gtfs_field.specs.TextOrder.{text_cmp};
ghost use Rattle.gtfs_devices.specs.Disk.{LacksDir, RefusesOpen, TellsUnlisted};

use crate::folders::FolderFault;
use crate::system::{Listing, System};
use gtfs_field::Text;
use std::alloc::Global;
use std::cmp::Ordering;
use std::io::ErrorKind;

// The names of a folder's entries, in byte order.
pub(crate) fn list<S: System>(
    system: &S,
    alloc: Global,
    dir: &str,
    entries: usize,
) -> Result<Vec<Text>, FolderFault>
    ensures ordered { IfOk result (λ names. IsByBytes names.items) }
    ensures few { IfOk result (λ names. vec_len names ≤ entries) }
    ensures refused { IfErr result RefusesOpen }
    ensures absent { IsErrOf result FolderFault.NoFolder
        → LacksDir (S.lists system.now) (S.looks system.now) dir.now }
{
    if dir.is_empty() {
        return Err(FolderFault::NoFolder);
    }
    let mut names = Vec::new(alloc);
    push_names(system, alloc, dir, entries, &mut names)?;
    names.sort_unstable_by(|a, b| order(a, b));
    Ok(names)
}

fn order(a: &Text, b: &Text) -> Ordering
    ensures { result ≡ text_cmp a.now b.now }
{
    a.as_str().cmp(b.as_str())
}

// Adds the names of a folder's entries, as the file system lists them,
// up to as many names as `entries`.
fn push_names<S: System>(
    system: &S,
    alloc: Global,
    dir: &str,
    entries: usize,
    names: &mut Vec<Text>,
) -> Result<(), FolderFault>
    requires { vec_len names.old ≤ entries }
    ensures few { OnOk result (vec_len names.new ≤ entries) }
    ensures refused { IfErr result RefusesOpen }
    ensures absent { IsErrOf result FolderFault.NoFolder
        → LacksDir (S.lists system.now) (S.looks system.now) dir.now }
{
    match system.list(dir) {
        Ok(mut listing) => listing.push_names(alloc, entries, names),
        Err(kind) => Err(list_fault(system, dir, kind)),
    }
}

// What it means that the folder of this path could not be listed:
// only one that is not found is not there.
fn list_fault<S: System>(system: &S, dir: &str, kind: ErrorKind) -> FolderFault
    ensures { TellsUnlisted (S.looks system.now) dir.now kind result }
{
    match (kind, system.look(dir)) {
        (ErrorKind::NotFound, Err(ErrorKind::NotFound)) => FolderFault::NoFolder,
        (ErrorKind::OutOfMemory, _) => FolderFault::OutOfMemory,
        _ => FolderFault::Read,
    }
}
