ghost use Rattle.std.specs.Prelude.{◌≡◌, option_copied, string_bytes, IfOk, OnOk, OnErr};
ghost use Rattle.std.specs.FinMap as finite;
ghost use Rattle.gtfs_devices.specs.Folder.{IsByBytes};

use gtfs_field::{List, OutOfMemory, Text};
use std::alloc::Global;
use std::collections::BTreeMap;
use std::marker::Model;

// The files of one folder in memory, by their names.
#[derive(Debug, Drop)]
pub(crate) struct MemoryFiles {
    files: BTreeMap<String, List<u8>>,
}

impl Model for MemoryFiles {
    ghost use Rattle.gtfs_devices.specs.Folder.{Files};
    ghost use Rattle.gtfs_devices.specs.ByText.{files_code, by_text};

    ghost Value = { Files };

    ghost coded = { files_code };

    ghost view = { λ folder. by_text folder.files.entries };
}

impl MemoryFiles {
    // A folder with no file. It takes no memory.
    pub(crate) fn new(alloc: Global) -> MemoryFiles
        ensures { result ≡ finite.empty }
    {
        MemoryFiles {
            files: BTreeMap::new(alloc),
        }
    }

    // The bytes of the file with this name, if there is one.
    pub(crate) fn get(&self, name: &str) -> Option<&[u8]>
        ensures { option_copied result ≡ finite.get self.now name.now }
    {
        match self.files.get(name) {
            Some(bytes) => Some(bytes.as_slice()),
            None => None,
        }
    }

    // Makes these bytes the whole of a file. A refusal leaves the folder as it was.
    pub(crate) fn put(&mut self, name: String, bytes: List<u8>) -> Result<(), OutOfMemory>
        ensures ok { OnOk result (self.new ≡ finite.insert self.old (string_bytes name) bytes) }
        ensures err { OnErr result (self.new ≡ self.old) }
    {
        self.files.insert(name, bytes)?;
        Ok(())
    }

    // The names of the files, in byte order.
    pub(crate) fn names(&self, alloc: Global) -> Result<Vec<Text>, OutOfMemory>
        ensures all { IfOk result (λ names. names.items ≡ finite.keys self.now) }
        ensures ordered { IfOk result (λ names. IsByBytes names.items) }
    {
        let mut names = Vec::new(alloc);
        for name in self.files.keys() {
            names.push(Text::new(name.clone()?))?;
        }
        Ok(names)
    }
}
