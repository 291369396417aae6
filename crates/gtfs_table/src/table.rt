ghost use Rattle.std.specs.Prelude.{◌≡◌, ◌<◌, [], length, option_map, IfOk, OnOk, OnErr};
ghost use Rattle.gtfs_table.specs.Rows.{rows_past};
ghost use Rattle.gtfs_table.specs.Tables.{absent, column_of, field_cut, record_at, table_records, table_state, with_field, with_record};
ghost use Rattle.gtfs_table.specs.TableTexts.{text_of_table, ReadsBack};

use crate::csv_writing::write_records;
use crate::record::Record;
use crate::records::Records;
use crate::rows::Rows;
use crate::state::State;
use gtfs_field::OutOfMemory;
use std::alloc::Global;
use std::marker::Model;

// What is known of one kept file, and its records.
pub(crate) struct FileTable {
    pub(crate) state: State,
    pub(crate) records: Records,
}

impl Model for FileTable {
    ghost use Rattle.gtfs_table.specs.Tables.{Table};

    ghost Value = { Table };

    ghost use Rattle.gtfs_table.specs.StoredRecords.{table_stored, IsTableStore};

    ghost view = { table_stored };

    ghost invariant = { IsTableStore };
}

// Written out, so that a function that lets a table go has one call to prove.
impl Drop for FileTable {
    fn drop(self) {
        let FileTable {
            state: _,
            records: _,
        } = self;
    }
}

impl FileTable {
    // The table of a file that is not there.
    pub(crate) fn absent(alloc: Global) -> FileTable
        ensures { result ≡ absent }
    {
        FileTable {
            state: State::Absent,
            records: Records::new(alloc),
        }
    }

    // The memory of the fields of short records, with nothing in it.
    pub(crate) fn into_memory(self) -> Vec<u8>
        ensures { result.items ≡ [] }
    {
        let FileTable { state: _, records } = self;
        records.into_memory()
    }

    pub(crate) fn state(&self) -> State
        ensures { result ≡ table_state self.now }
    {
        self.state
    }

    pub(crate) fn len(&self) -> usize
        ensures { result ≡ length (table_records self.now) }
    {
        self.records.len()
    }

    // The record of a row, from 1: one with no field where there is no such row.
    pub(crate) fn record(&self, row: usize) -> Record<'_>
        ensures { result ≡ record_at (table_records self.now) row }
    {
        self.records.record(row)
    }

    // The rows: the records after the header that are not blank.
    pub(crate) fn rows(&self) -> Rows<'_>
        ensures { result ≡ rows_past (table_records self.now) 1 }
    {
        Rows::past(&self.records, 1)
    }

    // The index of the first column of this name in the header.
    pub(crate) fn column(&self, name: &str) -> Option<usize>
        ensures { result ≡ column_of (table_records self.now) name.now }
    {
        if name.is_empty() {
            return None;
        }
        let header = self.record(1);
        for n in 0..header.len() {
            if header.field(n) == name {
                return Some(n);
            }
        }
        None
    }

    pub(crate) fn push_record(&mut self, field: &str) -> Result<(), OutOfMemory>
        ensures ok { OnOk result (self.new ≡ with_record self.old field.now) }
        ensures err { OnErr result (self.new ≡ self.old) }
    {
        self.records.push_record(field)?;
        self.state = State::Read;
        Ok(())
    }

    pub(crate) fn push_field(&mut self, field: &str) -> Result<(), OutOfMemory>
        requires { 0 < length (table_records self.old) }
        ensures ok { OnOk result (self.new ≡ with_field self.old field.now) }
        ensures err { OnErr result (self.new ≡ self.old) }
    {
        self.records.push_field(field)
    }

    // The text of the records as `csv` writes it: none where the file is absent, and empty where it
    // has none since it is not UTF-8.
    pub(crate) fn write(&self, alloc: Global) -> Result<Option<Vec<u8>>, OutOfMemory>
        ensures text { IfOk result
            (λ text. option_map (λ bytes. bytes.items) text ≡ text_of_table self.now) }
        ensures reads_back { IfOk result
            (λ text. ReadsBack self.now (option_map (λ bytes. bytes.items) text)) }
    {
        match self.state {
            State::Absent => Ok(None),
            State::NotUtf8 => Ok(Some(Vec::new(alloc))),
            State::Read => Ok(Some(write_records(alloc, &self.records)?)),
        }
    }
}
