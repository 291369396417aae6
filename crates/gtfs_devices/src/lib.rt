//! The folders that files are read from and written to, and the outputs that text goes to.
//!
//! [`Folders`] is any device that holds folders of files: [`DiskFolders`] over a file
//! system, and [`MemoryFolders`] in memory, where a chosen call can be made to fail. It
//! lists the names of a folder, reads a file up to a limit, lends one to a [`FileReader`] that
//! takes it piece after piece, and writes a file whole. [`FolderFault`] says why a call was
//! refused.
//!
//! [`Out`] is any device that takes text: [`WriteOut`] over a writer, as a terminal, and
//! [`MemoryOut`] in memory, with an end to its room. [`write_text`] sends a text out whole, or
//! tells how much of it went out ([`OutFault`]).
//!
//! A device counts its failures, and answers a failure of its own only where that count rose in the
//! very call. What a device holds, or what went out to it, may be unknown, as with a disk or a
//! terminal: what is promised of it says nothing then.
//!
//! ```text
//! let mut folders = MemoryFolders::new(rt.alloc(), 100, None);
//! folders.put("f1", "stops.txt", b"stop_id\nS1\n")?;
//! let file = folders.read(rt.alloc(), "f1", "stops.txt")?;
//!
//! let mut out = MemoryOut::new(rt.alloc(), 10)?;
//! let written = write_text(&mut out, b"departure");
//! ```
//!
//! What a folder holds and what its calls answer stands in `specs/Folder.antt`, what devices tell
//! of themselves in `specs/Device.antt`.
#![tactic(auto)]

mod disk_files;
mod disk_folders;
mod disk_names;
mod file_reader;
mod folders;
mod memory_files;
mod memory_folders;
mod memory_out;
mod memory_store;
mod output;
mod read_within;
mod system;
mod write_out;
mod write_whole;

pub use disk_folders::DiskFolders;
pub use file_reader::FileReader;
pub use folders::{FolderFault, Folders};
pub use memory_folders::MemoryFolders;
pub use memory_out::MemoryOut;
pub use output::{Failed, Out, OutFault, write_text};
pub use write_out::WriteOut;
