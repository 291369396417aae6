ghost use Rattle.std.specs.Prelude.{◌≡◌, ◌<◌, ◌≤◌, ◌-◌, ◌++◌, [], drop, length, slice_index, List, ℕ, IfOk, OnOk};
ghost use Rattle.gtfs_table.specs.FilePieces.{ends_within, feeds_last};
ghost use Rattle.gtfs_table.specs.ReadingProgress.{nothing_read, table_after};

use crate::csv_reading::{cut_marks, read_all};
use crate::record::Record;
use crate::records::Records;
use crate::state::State;
use crate::table::FileTable;
use gtfs_devices::FileReader;
use gtfs_field::OutOfMemory;
use std::alloc::Global;
use std::marker::Model;

// How many bytes are gathered at least before their records are read: few enough to stay close to
// the processor, and enough that a `csv` reader for each of them costs nothing.
const PIECE: usize = 1_048_576;

// Reads the table of a file whose bytes come piece after piece. Once the records of bytes are read,
// the bytes are let go.
#[derive(Drop)]
pub(crate) struct TableReader {
    records: Records,
    // The bytes of which no record is read. Behind others they begin with the line feed before them.
    left: Vec<u8>,
    // How many of these there have to be before records are read.
    wanted: usize,
    is_text: bool,
}

impl Model for TableReader {
    ghost use Rattle.gtfs_table.specs.ReadingProgress.{Progress};

    ghost Value = { Progress };

    ghost view = { λ r. record {
      records = r.records;
      left = r.left.items;
      is_text = r.is_text;
    } };
}

impl TableReader {
    // A reader that has taken nothing. It keeps records in the memory of these bytes, which are let
    // go.
    pub(crate) fn new(memory: Vec<u8>) -> TableReader
        ensures { result ≡ nothing_read }
    {
        let alloc = *memory.allocator();
        TableReader {
            records: Records::in_memory(memory),
            left: Vec::new(alloc),
            wanted: PIECE,
            is_text: true,
        }
    }

    // The table of all bytes.
    pub(crate) fn into_table(self) -> Result<FileTable, OutOfMemory>
        ensures { IfOk result (λ table. table ≡ table_after self []) }
    {
        let alloc = *self.left.allocator();
        let TableReader {
            mut records,
            left,
            wanted: _,
            is_text,
        } = self;
        match str::from_utf8(cut_marks(&left)) {
            Ok(text) if is_text => {
                read_all(alloc, text, &mut records)?;
                Ok(FileTable {
                    state: State::Read,
                    records,
                })
            }
            _ => Ok(FileTable {
                state: State::NotUtf8,
                records: Records::new(alloc),
            }),
        }
    }

    // Takes the next bytes, and reads records once there are enough.
    fn take_part(&mut self, part: &[u8]) -> Result<(), OutOfMemory>
        ensures { OnOk result ((rest : List ℕ)
            → table_after self.old (part.now ++ rest) ≡ table_after self.new rest) }
    {
        if !self.is_text {
            return Ok(());
        }
        self.left.extend_from_slice(part)?;
        if self.left.len() >= self.wanted {
            self.read_lines()?;
            self.wanted = self.left.len().saturating_mul(2).max(PIECE);
        }
        Ok(())
    }

    // Reads the records of all whole lines, unless there is none or the last one seems to end within
    // quotes.
    fn read_lines(&mut self) -> Result<(), OutOfMemory>
        ensures { OnOk result ((rest : List ℕ)
            → table_after self.old rest ≡ table_after self.new rest) }
    {
        let alloc = *self.left.allocator();
        let end = lines_end(&self.left);
        let count = self.records.len();
        match str::from_utf8(cut_marks(&self.left[..end])) {
            Ok(text) => read_all(alloc, text, &mut self.records)?,
            Err(_) => {
                self.is_text = false;
                return Ok(());
            }
        }
        if end <= 1 || self.ends_within(count) {
            self.records.truncate(count);
            return Ok(());
        }
        let rest = Vec::from_slice(alloc, &self.left[end - 1..])?;
        self.left.clear();
        self.left.extend_from_slice(&rest)?;
        Ok(())
    }

    // Whether the last of the records after the first ones, as many as `count`, seems to end within
    // quotes: its last field ends with a line feed.
    fn ends_within(&self, count: usize) -> bool
        requires { count ≤ length self.now.records }
        ensures { result ≡ ends_within (drop count self.now.records) }
    {
        let last = self.records.len();
        last > count && ends_with_line_feed(&self.records.record(last))
    }
}

impl FileReader for TableReader {
    ghost use Rattle.gtfs_table.specs.ReadingProgress.{HasTaken};

    ghost has_taken = { HasTaken };

    // Makes room for the records of a file of this size.
    fn expect(&mut self, size: usize) -> Result<(), OutOfMemory> {
        if self.records.len() == 0 {
            self.records.reserve(size)?;
        }
        Ok(())
    }

    // A device may hand on a whole file at once: it is taken in parts all the same.
    fn take(&mut self, piece: &[u8]) -> Result<(), OutOfMemory> {
        let mut behind = piece;
        while !behind.is_empty() {
            let size = behind.len().min(PIECE);
            self.take_part(&behind[..size])?;
            behind = &behind[size..];
        }
        Ok(())
    }
}

// Whether the last field of a record ends with a line feed.
fn ends_with_line_feed(row: &Record<'_>) -> bool
    ensures { result ≡ feeds_last row.now }
{
    let fields = row.len();
    fields > 0
        && match row.raw(fields - 1).as_bytes().last() {
            Some(byte) => *byte == b'\n',
            None => false,
        }
}

// How many bytes there are up to the end of the last whole line.
fn lines_end(bytes: &[u8]) -> usize
    ensures within { result ≤ length bytes.now }
    ensures ended { 0 < result → slice_index bytes.now (result - 1) ≡ 10 }
{
    let mut end = bytes.len();
    while end > 0 && bytes[end - 1] != b'\n' {
        end -= 1;
    }
    end
}
