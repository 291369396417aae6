ghost use Rattle.std.specs.Prelude.{◌≡◌, ◌≤◌, ℕ, [], Option, None, option_map, vec_len, IfOk, IfErr, IfSome, IsErrOf, OnOk};
ghost use Rattle.gtfs_devices.specs.Device.{Calls, FailsAtLast, MakesCalls};
ghost use Rattle.gtfs_devices.specs.Folder.{Store, CountsFault, IsByBytes, Lists, Finds, Lends, Writes, RefusesNames, RefusesRead, RefusesWrite};

use crate::file_reader::FileReader;
use gtfs_field::{OutOfMemory, Text};
use std::alloc::{AllocFailed, Global};
use thiserror::Error;

/// Why a call on folders was refused.
#[derive(Clone, Copy, Debug, PartialEq, Eq, Error)]
pub enum FolderFault {
    /// The folder or the file could not be read. The count of failures rose.
    #[error("cannot be read")]
    Read = 1,
    /// The file is longer than the device's limit.
    #[error("holds a file over the limit")]
    TooLarge = 2,
    /// Memory was refused.
    #[error("out of memory")]
    OutOfMemory = 3,
    /// There is no such folder.
    #[error("is not there")]
    NoFolder = 4,
    /// The file could not be written. The count of failures rose.
    #[error("cannot be written")]
    Write = 5,
}

impl From<OutOfMemory> for FolderFault {
    ghost use Rattle.std.specs.Prelude.{◌≡◌};
    ghost use Rattle.gtfs_devices.specs.declared.folders.FolderFault.TheVariants.{OutOfMemory as no_memory};

    ghost from_gives = { λ _ fault. fault ≡ no_memory };

    fn from(_refused: OutOfMemory) -> FolderFault {
        FolderFault::OutOfMemory
    }
}

impl<T: Drop> From<AllocFailed<T>> for FolderFault {
    ghost use Rattle.std.specs.Prelude.{◌≡◌};
    ghost use Rattle.gtfs_devices.specs.declared.folders.FolderFault.TheVariants.{OutOfMemory as no_memory};

    ghost from_gives = { λ _ fault. fault ≡ no_memory };

    fn from(_refused: AllocFailed<T>) -> FolderFault {
        FolderFault::OutOfMemory
    }
}

/// A device that holds folders of files (GTFS Schedule Reference, "Dataset Files"): each file lies
/// in a folder under a name, and is a list of bytes.
///
/// A device counts its failures. It answers Read and Write only where that count rose in the very
/// call, and a call that ends otherwise leaves the count as it was; a count at 2^64 - 1 stays there
/// and counts as risen. A device has a limit, the greatest length in bytes of a file that it reads,
/// which never changes. A device may count its calls too. The contents of a device may be unknown,
/// as those of a disk are: the clauses on its contents say nothing then.
pub trait Folders {
    ghost held: { Self → Option Store };

    ghost failure_count: { Self → ℕ };

    ghost limit: { Self → ℕ };

    ghost calls: { Self → Option Calls } = { λ _. None };

    /// The names of what lies in a folder, in byte order.
    ///
    /// # Errors
    /// `Read` where the device failed, `NoFolder` where there is no such folder,
    /// and `OutOfMemory` where memory is refused.
    fn names(&mut self, alloc: Global, dir: &str) -> Result<Vec<Text>, FolderFault>
        ensures lists { IfOk result
            (λ names. Lists (held self.old) dir.now names.items) }
        ensures ordered { IfOk result (λ names. IsByBytes names.items) }
        ensures refused { IfErr result
            (λ fault. RefusesNames fault (held self.old) dir.now
            (failure_count self.old) (failure_count self.new)) }
        ensures unchanged { held self.new ≡ held self.old }
        ensures grows { failure_count self.old ≤ failure_count self.new }
        ensures no_failure { OnOk result (failure_count self.new ≡ failure_count self.old) }
        ensures counts_fault { IfErr result
            (λ fault. CountsFault fault (failure_count self.old) (failure_count self.new)) }
        ensures same_limit { limit self.new ≡ limit self.old }
        ensures called { MakesCalls 1 (calls self.old) (calls self.new) }
        ensures ends { IsErrOf result FolderFault.Read → FailsAtLast (calls self.new) };

    /// The bytes of a folder's file, or None where the folder has no such file.
    ///
    /// # Errors
    /// `Read` where the device failed, `TooLarge` where the file is longer than the device's limit,
    /// `NoFolder` where there is no such folder, and `OutOfMemory` where memory is refused.
    fn read(&mut self, alloc: Global, dir: &str, name: &str) -> Result<Option<Vec<u8>>, FolderFault>
        ensures finds { IfOk result
            (λ file. Finds (held self.old) dir.now name.now
            (option_map (λ bytes. bytes.items) file)) }
        ensures within { IfOk result
            (λ file. IfSome file (λ bytes. vec_len bytes ≤ limit self.old)) }
        ensures refused { IfErr result
            (λ fault. RefusesRead fault (limit self.old) (held self.old) dir.now name.now
            (failure_count self.old) (failure_count self.new)) }
        ensures unchanged { held self.new ≡ held self.old }
        ensures grows { failure_count self.old ≤ failure_count self.new }
        ensures no_failure { OnOk result (failure_count self.new ≡ failure_count self.old) }
        ensures counts_fault { IfErr result
            (λ fault. CountsFault fault (failure_count self.old) (failure_count self.new)) }
        ensures same_limit { limit self.new ≡ limit self.old }
        ensures called { MakesCalls 1 (calls self.old) (calls self.new) }
        ensures ends { IsErrOf result FolderFault.Read → FailsAtLast (calls self.new) };

    /// Lends the bytes of a folder's file to a reader, piece after piece, and answers whether the
    /// folder has such a file.
    ///
    /// # Errors
    /// Those of [`Folders::read`]; `OutOfMemory` also where the reader was refused memory. What the
    /// reader has taken is then open.
    fn lend<R: FileReader>(
        &mut self,
        alloc: Global,
        dir: &str,
        name: &str,
        reader: &mut R,
    ) -> Result<bool, FolderFault>
        requires { R.has_taken reader.old [] }
        ensures lends { IfOk result
            (Lends (held self.old) (limit self.old) dir.now name.now (R.has_taken reader.new)) }
        ensures refused { IfErr result
            (λ fault. RefusesRead fault (limit self.old) (held self.old) dir.now name.now
            (failure_count self.old) (failure_count self.new)) }
        ensures unchanged { held self.new ≡ held self.old }
        ensures grows { failure_count self.old ≤ failure_count self.new }
        ensures no_failure { OnOk result (failure_count self.new ≡ failure_count self.old) }
        ensures counts_fault { IfErr result
            (λ fault. CountsFault fault (failure_count self.old) (failure_count self.new)) }
        ensures same_limit { limit self.new ≡ limit self.old }
        ensures called { MakesCalls 1 (calls self.old) (calls self.new) }
        ensures ends { IsErrOf result FolderFault.Read → FailsAtLast (calls self.new) }
    {
        match self.read(alloc, dir, name)? {
            Some(bytes) => {
                reader.expect(bytes.len())?;
                reader.take(&bytes)?;
                Ok(true)
            }
            None => Ok(false),
        }
    }

    /// Makes these bytes the whole of a folder's file. Makes the folder where it is absent, and
    /// takes the place of a file that was there. It judges no limit.
    ///
    /// # Errors
    /// `Write` where the device failed; the content of that one file is then open. `OutOfMemory`
    /// where memory is refused; all is then as it was.
    fn write(
        &mut self,
        alloc: Global,
        dir: &str,
        name: &str,
        bytes: &[u8],
    ) -> Result<(), FolderFault>
        ensures written { OnOk result
            (Writes (held self.old) (held self.new) dir.now name.now bytes.now) }
        ensures refused { IfErr result
            (λ fault. RefusesWrite fault (held self.old) (held self.new) dir.now name.now
            (failure_count self.old) (failure_count self.new)) }
        ensures grows { failure_count self.old ≤ failure_count self.new }
        ensures no_failure { OnOk result (failure_count self.new ≡ failure_count self.old) }
        ensures counts_fault { IfErr result
            (λ fault. CountsFault fault (failure_count self.old) (failure_count self.new)) }
        ensures same_limit { limit self.new ≡ limit self.old }
        ensures called { MakesCalls 1 (calls self.old) (calls self.new) }
        ensures ends { IsErrOf result FolderFault.Write → FailsAtLast (calls self.new) };

    /// How often a call failed with Read or Write, at most 2^64 - 1.
    fn failures(&self) -> u64
        ensures { result ≡ failure_count self.now };
}
