//! How a call of `run` ends over outputs in memory.

use gtfs_cli::run;
use gtfs_table::{MemoryFolders, MemoryOut};
use std::alloc::Global;
use std::hash::RandomState;
use std::test::Fail;

/// The status, and the outputs with what they took.
#[derive(Drop)]
pub(super) struct Ended {
    pub(super) status: u8,
    pub(super) out: MemoryOut,
    pub(super) err: MemoryOut,
}

impl Ended {
    /// Runs the words over outputs with room for this many bytes.
    pub(super) fn of(
        alloc: Global,
        random: RandomState,
        folders: &mut MemoryFolders,
        words: &[&str],
        (out_room, err_room): (usize, usize),
    ) -> Result<Ended, Fail> {
        let mut out = MemoryOut::new(alloc, out_room)?;
        let mut err = MemoryOut::new(alloc, err_room)?;
        let status = run(alloc, random, words, folders, &mut out, &mut err);
        Ok(Ended { status, out, err })
    }

    /// The status, the output and the error output.
    pub(super) fn seen(&self) -> Result<(u8, &str, &str), Fail> {
        let printed = str::from_utf8(self.out.bytes())?;
        let told = str::from_utf8(self.err.bytes())?;
        Ok((self.status, printed, told))
    }
}
