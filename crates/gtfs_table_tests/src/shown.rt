//! Tables as texts: a field between angle brackets, and a record on a line.
use gtfs_field::OutOfMemory;
use gtfs_table::{File, FolderFault, Folders, MemoryFolders, State, Tables};
use std::alloc::Global;

/// The tables of a folder that has one file.
pub(crate) fn tables_of(alloc: Global, file: File, bytes: &[u8]) -> Result<Tables, FolderFault> {
    let mut folders = MemoryFolders::new(alloc, 1_000_000, None);
    folders.put("f1", file.name(), bytes)?;
    Tables::read(alloc, &mut folders, "f1")
}

fn push_records(text: &mut String, tables: &Tables, file: File) -> Result<(), OutOfMemory> {
    for i in 0..tables.records(file) {
        for n in 0..tables.fields(file, i + 1) {
            text.push_str("<")?;
            text.push_str(tables.field(file, i + 1, n))?;
            text.push_str(">")?;
        }
        text.push_str("\n")?;
    }
    Ok(())
}

fn told(state: State) -> &'static str {
    match state {
        State::Absent => " is absent\n",
        State::NotUtf8 => " is not UTF-8\n",
        State::Read => " is read\n",
    }
}

/// Each file with its state and its records, and then the other names.
pub(crate) fn shown(alloc: Global, tables: &Tables) -> Result<String, OutOfMemory> {
    let mut text = String::new(alloc);
    for &file in &File::ALL {
        text.push_str(file.name())?;
        text.push_str(told(tables.state(file)))?;
        push_records(&mut text, tables, file)?;
    }
    for name in tables.others() {
        text.push_str(name.as_str())?;
        text.push_str("\n")?;
    }
    Ok(text)
}

/// The records of a file.
pub(crate) fn records(alloc: Global, tables: &Tables, file: File) -> Result<String, OutOfMemory> {
    let mut text = String::new(alloc);
    push_records(&mut text, tables, file)?;
    Ok(text)
}
