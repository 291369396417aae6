ghost use Rattle.std.specs.Prelude.{◌≡◌, ◌≤◌, IsTrue, [], string_bytes, option_map, vec_len, IfOk, IfErr, IfSome, IsErrOf, OnOk};
ghost use Rattle.gtfs_devices.specs.Disk.{path_in, FillsMade, IsWritable, LacksDir, LendsOrLacks, OpensOrLacks, OverflowsOpened, ReadsOrLacks, RefusesFile, RefusesOpen, RefusesStore};

use crate::file_reader::FileReader;
use crate::folders::FolderFault;
use crate::read_within::{lend_within, pass_within, read_within};
use crate::system::{Entry, System};
use crate::write_whole::write_whole;
use gtfs_field::OutOfMemory;
use std::alloc::Global;
use std::fs::OpenFile;
use std::io::ErrorKind;

// A folder's file, or None where the folder has no entry of that name.
// How long a file is tells its reading.
pub(crate) fn read_file<S: System>(
    system: &S,
    alloc: Global,
    dir: &str,
    name: &str,
    limit: u64,
) -> Result<Option<Vec<u8>>, FolderFault>
    ensures whole { IfOk result
        (λ file. ReadsOrLacks (S.finds system.now) (S.looks system.now) (S.opens system.now)
        S.File.remaining dir.now (path_in dir.now name.now) (option_map (λ bytes. bytes.items) file)) }
    ensures within { IfOk result (λ file. IfSome file (λ bytes. vec_len bytes ≤ limit)) }
    ensures large { IsErrOf result FolderFault.TooLarge
        → OverflowsOpened (S.finds system.now) (S.opens system.now) S.File.remaining
        (path_in dir.now name.now) limit }
    ensures no_folder { IsErrOf result FolderFault.NoFolder
        → LacksDir (S.finds system.now) (S.looks system.now) dir.now }
    ensures refused { IfErr result RefusesFile }
{
    match open_within(system, alloc, dir, name, limit)? {
        Some((mut file, size)) => Ok(Some(read_within(alloc, &mut file, limit, size)?)),
        None => Ok(None),
    }
}

// Lends a folder's file to a reader, and answers whether the folder has an entry of that name.
// How long a file is tells its reading.
pub(crate) fn lend_file<S: System, R: FileReader>(
    system: &S,
    alloc: Global,
    dir: &str,
    name: &str,
    limit: u64,
    reader: &mut R,
) -> Result<bool, FolderFault>
    requires { R.has_taken reader.old [] }
    ensures whole { IfOk result
        (LendsOrLacks (S.finds system.now) (S.looks system.now) (S.opens system.now)
        S.File.remaining dir.now (path_in dir.now name.now) limit (R.has_taken reader.new)) }
    ensures large { IsErrOf result FolderFault.TooLarge
        → OverflowsOpened (S.finds system.now) (S.opens system.now) S.File.remaining
        (path_in dir.now name.now) limit }
    ensures no_folder { IsErrOf result FolderFault.NoFolder
        → LacksDir (S.finds system.now) (S.looks system.now) dir.now }
    ensures refused { IfErr result RefusesFile }
{
    match open_within(system, alloc, dir, name, limit)? {
        Some((mut file, size)) => {
            reader.expect(size)?;
            lend_within(&mut file, limit, reader)?;
            Ok(true)
        }
        None => Ok(false),
    }
}

// A folder's file, of which nothing is read yet, with how many bytes to make room for,
// or None where the folder has no entry of that name.
//
// A file that is told to be longer than the limit is first gone through without keeping any of it,
// so that one over the limit is too large in little memory as well.
fn open_within<S: System>(
    system: &S,
    alloc: Global,
    dir: &str,
    name: &str,
    limit: u64,
) -> Result<Option<(S::File, usize)>, FolderFault>
    ensures opened { IfOk result
        (λ opened. OpensOrLacks (S.finds system.now) (S.looks system.now) (S.opens system.now)
        dir.now (path_in dir.now name.now) (option_map (λ of. of.0) opened)) }
    ensures large { IsErrOf result FolderFault.TooLarge
        → OverflowsOpened (S.finds system.now) (S.opens system.now) S.File.remaining
        (path_in dir.now name.now) limit }
    ensures no_folder { IsErrOf result FolderFault.NoFolder
        → LacksDir (S.finds system.now) (S.looks system.now) dir.now }
    ensures refused { IfErr result RefusesFile }
{
    let Some(mut file) = open_file(system, alloc, dir, name)? else {
        return Ok(None);
    };
    if let Some(size) = size_within(&file, limit) {
        return Ok(Some((file, size)));
    }
    pass_within(&mut file, limit)?;
    match open_file(system, alloc, dir, name)? {
        Some(file) => Ok(Some((file, 0))),
        None => Ok(None),
    }
}

// A folder's file, of which nothing is read yet,
// or None where the folder has no entry of that name.
fn open_file<S: System>(
    system: &S,
    alloc: Global,
    dir: &str,
    name: &str,
) -> Result<Option<S::File>, FolderFault>
    ensures opened { IfOk result
        (λ file. OpensOrLacks (S.finds system.now) (S.looks system.now) (S.opens system.now)
        dir.now (path_in dir.now name.now) file) }
    ensures no_folder { IsErrOf result FolderFault.NoFolder
        → LacksDir (S.finds system.now) (S.looks system.now) dir.now }
    ensures refused { IfErr result RefusesOpen }
{
    if dir.is_empty() {
        return Err(FolderFault::NoFolder);
    }
    if name.is_empty() {
        return Err(FolderFault::Read);
    }
    let path = path_of(alloc, dir, name)?;
    open_at(system, dir, path.as_str())
}

// The file of this path, which lies in the folder.
// What is neither a file nor a device is never opened.
fn open_at<S: System>(system: &S, dir: &str, path: &str) -> Result<Option<S::File>, FolderFault>
    ensures opened { IfOk result
        (λ file. OpensOrLacks (S.finds system.now) (S.looks system.now) (S.opens system.now)
        dir.now path.now file) }
    ensures no_folder { IsErrOf result FolderFault.NoFolder
        → LacksDir (S.finds system.now) (S.looks system.now) dir.now }
    ensures refused { IfErr result RefusesOpen }
{
    match system.find(path) {
        Ok(entry) if entry.is_openable() => match system.open(path) {
            Ok(file) => Ok(Some(file)),
            Err(_) => Err(FolderFault::Read),
        },
        Ok(_) => Err(FolderFault::Read),
        Err(kind) => without_file(system, dir, path, kind),
    }
}

// What it means that the path of a folder's file leads to nothing: the folder has no such file, is
// not there itself, or something else stands in the way.
fn without_file<S: System>(
    system: &S,
    dir: &str,
    path: &str,
    kind: ErrorKind,
) -> Result<Option<S::File>, FolderFault>
    requires { S.finds system.now path.now (Err kind) }
    ensures opened { IfOk result
        (λ file. OpensOrLacks (S.finds system.now) (S.looks system.now) (S.opens system.now)
        dir.now path.now file) }
    ensures no_folder { IsErrOf result FolderFault.NoFolder
        → LacksDir (S.finds system.now) (S.looks system.now) dir.now }
    ensures refused { IfErr result RefusesOpen }
{
    match (kind, system.look(path)) {
        (ErrorKind::NotFound, Err(ErrorKind::NotFound)) => {
            folder_stands(system, dir)?;
            Ok(None)
        }
        _ => Err(FolderFault::Read),
    }
}

// Whether a folder is there, where it has not the entry that was wanted of it.
fn folder_stands<S: System>(system: &S, dir: &str) -> Result<(), FolderFault>
    ensures stands { OnOk result (S.finds system.now dir.now (Ok Entry.Folder)) }
    ensures no_folder { IsErrOf result FolderFault.NoFolder
        → LacksDir (S.finds system.now) (S.looks system.now) dir.now }
    ensures refused { IfErr result RefusesOpen }
{
    match (system.find(dir), system.look(dir)) {
        (Ok(Entry::Folder), _) => Ok(()),
        (Err(ErrorKind::NotFound), Err(ErrorKind::NotFound)) => Err(FolderFault::NoFolder),
        _ => Err(FolderFault::Read),
    }
}

// How many bytes to make room for, as far as the file system tells it,
// or None where it tells more than the limit.
fn size_within<F: OpenFile>(file: &F, limit: u64) -> Option<usize> {
    match file.metadata() {
        Ok(found) if found.len() > limit => None,
        Ok(found) => Some(found.len() as usize),
        Err(_) => Some(0),
    }
}

// Makes all levels of the folder that are missing, and the file.
// Memory is taken before anything is made.
pub(crate) fn write_file<S: System>(
    system: &S,
    alloc: Global,
    dir: &str,
    name: &str,
    bytes: &[u8],
) -> Result<(), FolderFault>
    ensures whole { OnOk result
        (FillsMade (S.finds system.now) (S.makes system.now) S.File.contents
        (path_in dir.now name.now) bytes.now) }
    ensures refused { IfErr result RefusesStore }
{
    if dir.is_empty() {
        return Err(FolderFault::Write);
    }
    let path = path_of(alloc, dir, name)?;
    if !system.make_folder(dir) {
        return Err(FolderFault::Write);
    }
    write_at(system, path.as_str(), bytes)
}

// Makes the file of this path, once. What is neither a file nor a device is never opened.
fn write_at<S: System>(system: &S, path: &str, bytes: &[u8]) -> Result<(), FolderFault>
    ensures whole { OnOk result
        (FillsMade (S.finds system.now) (S.makes system.now) S.File.contents
        path.now bytes.now) }
    ensures refused { IfErr result RefusesStore }
{
    if !is_writable(system.find(path)) {
        return Err(FolderFault::Write);
    }
    match system.make(path) {
        Ok(mut file) => write_whole(&mut file, bytes),
        Err(_) => Err(FolderFault::Write),
    }
}

// Whether a file may be made where this was found.
fn is_writable(found: Result<Entry, ErrorKind>) -> bool
    ensures { IsTrue result → IsWritable found }
{
    match found {
        Ok(entry) => entry.is_openable(),
        Err(kind) => kind == ErrorKind::NotFound,
    }
}

fn path_of(alloc: Global, dir: &str, name: &str) -> Result<String, OutOfMemory>
    ensures { IfOk result (λ path. string_bytes path ≡ path_in dir.now name.now) }
{
    let mut path = String::from_str(alloc, dir)?;
    path.push('/')?;
    path.push_str(name)?;
    Ok(path)
}
