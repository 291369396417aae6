ghost use Rattle.std.specs.Prelude.{◌≡◌};
ghost use Rattle.gtfs_table.specs.Tables.{empty_dataset};
ghost use Rattle.gtfs_writing.specs.TakenRecords.{into_table};

use crate::digits::as_text;
use crate::sink::Sink;
use gtfs_field::OutOfMemory;
use gtfs_table::{File, Tables};
use std::alloc::Global;

// Rows as records of the table of one file.
pub(crate) struct TableRows {
    pub(crate) tables: Tables,
    pub(crate) file: File,
}

impl TableRows {
    // Tables of no file.
    pub(crate) fn new(alloc: Global) -> TableRows
        ensures tables { result.tables ≡ empty_dataset }
    {
        TableRows {
            tables: Tables::empty(alloc),
            file: File::Agency,
        }
    }

    pub(crate) fn into_tables(self) -> Tables
        ensures { result ≡ self.tables }
    {
        let TableRows { tables, file: _ } = self;
        tables
    }
}

impl Sink for TableRows {
    ghost takes = { into_table };

    fn first(&mut self, field: &str) -> Result<(), OutOfMemory> {
        self.tables.push_record(self.file, field)
    }

    fn next(&mut self, field: &str) -> Result<(), OutOfMemory> {
        if self.tables.records(self.file) == 0 {
            self.tables.push_record(self.file, field)
        } else {
            self.tables.push_field(self.file, field)
        }
    }

    fn plain_first(&mut self, field: &str) -> Result<(), OutOfMemory> {
        self.first(field)
    }

    fn plain(&mut self, field: &str) -> Result<(), OutOfMemory> {
        self.next(field)
    }

    fn plain_with_comma(&mut self, bytes: &[u8]) -> Result<(), OutOfMemory> {
        self.next(as_text(&bytes[1..]))
    }

    fn last(&mut self) -> Result<(), OutOfMemory> {
        Ok(())
    }
}
