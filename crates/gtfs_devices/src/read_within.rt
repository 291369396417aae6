ghost use Rattle.std.specs.Prelude.{◌≡◌, ◌≤◌, ◌+◌, [], vec_len, ⊤, IfOk, IfErr, IfSome, IsErrOf, OnOk};
ghost use Rattle.gtfs_devices.specs.Disk.{RefusesReading, GivesAtMost, GivesMoreThan, TakesWhole};

use crate::file_reader::FileReader;
use crate::folders::FolderFault;
use gtfs_field::OutOfMemory;
use std::alloc::Global;
use std::io::{ErrorKind, Read};

// How many bytes are asked for at once.
const CHUNK: usize = 65_536;

// All that a file has left, where that is no more than the limit, as `lend_within` hands it on.
// Room for `size` bytes is made at once.
pub(crate) fn read_within<F: Read>(
    alloc: Global,
    file: &mut F,
    limit: u64,
    size: usize,
) -> Result<Vec<u8>, FolderFault>
    ensures whole { IfOk result
        (λ bytes. IfSome (F.remaining file.old) (λ left. bytes.items ≡ left)) }
    ensures within { IfOk result (λ bytes. vec_len bytes ≤ limit) }
    ensures large { IsErrOf result FolderFault.TooLarge
        → GivesMoreThan limit (F.remaining file.old) (F.remaining file.new) }
    ensures takes { GivesAtMost (limit + 1) (F.remaining file.old) (F.remaining file.new) }
    ensures faults { IfErr result RefusesReading }
{
    let mut bytes = Vec::with_capacity(alloc, size)?;
    lend_within(file, limit, &mut bytes)?;
    Ok(bytes)
}

// A reader that keeps nothing of what it takes.
#[derive(Drop)]
struct Unkept;

impl FileReader for Unkept {
    ghost has_taken = { λ _ _. ⊤ };

    fn expect(&mut self, _size: usize) -> Result<(), OutOfMemory> {
        Ok(())
    }

    fn take(&mut self, _piece: &[u8]) -> Result<(), OutOfMemory> {
        Ok(())
    }
}

// Goes through all that a file has left, as `lend_within` does, and takes no memory.
pub(crate) fn pass_within<F: Read>(file: &mut F, limit: u64) -> Result<(), FolderFault>
    ensures whole { OnOk result (TakesWhole limit (F.remaining file.old) (λ _. ⊤)) }
    ensures large { IsErrOf result FolderFault.TooLarge
        → GivesMoreThan limit (F.remaining file.old) (F.remaining file.new) }
    ensures takes { GivesAtMost (limit + 1) (F.remaining file.old) (F.remaining file.new) }
    ensures faults { IfErr result RefusesReading }
{
    lend_within(file, limit, &mut Unkept)
}

// Hands all that a file has left to a reader, chunk after chunk, where that is no more than the
// limit. The chunk that passes the limit is not handed on.
//
// It takes at most one byte more than the limit, and makes at most two reads more than that many:
// where the file has not ended by then, and at a fault of the file, it answers Read.
pub(crate) fn lend_within<F: Read, R: FileReader>(
    file: &mut F,
    limit: u64,
    reader: &mut R,
) -> Result<(), FolderFault>
    requires { R.has_taken reader.old [] }
    ensures whole { OnOk result
        (TakesWhole limit (F.remaining file.old) (R.has_taken reader.new)) }
    ensures large { IsErrOf result FolderFault.TooLarge
        → GivesMoreThan limit (F.remaining file.old) (F.remaining file.new) }
    ensures takes { GivesAtMost (limit + 1) (F.remaining file.old) (F.remaining file.new) }
    ensures faults { IfErr result RefusesReading }
{
    let mut taken = 0u64;
    let mut chunk = [0u8; CHUNK];
    for _ in 0..limit.saturating_add(2) {
        let room = (limit - taken).saturating_add(1).min(CHUNK as u64) as usize;
        match file.read(&mut chunk[..room]) {
            Ok(0) => return Ok(()),
            Ok(count) => {
                if count as u64 > limit - taken {
                    return Err(FolderFault::TooLarge);
                }
                reader.take(&chunk[..count])?;
                taken += count as u64;
            }
            Err(fault) if fault.kind() == ErrorKind::Interrupted => {}
            Err(_) => return Err(FolderFault::Read),
        }
    }
    Err(FolderFault::Read)
}
