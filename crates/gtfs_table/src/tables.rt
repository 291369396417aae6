ghost use Rattle.std.specs.Prelude.{All, ◌≡◌, ◌≢◌, ◌<◌, ◌≤◌, [], false, is_some, length, map, option_map, IfOk, IfErr, IfSome, IsErrOf, OnOk, OnErr};
ghost use Rattle.std.specs.Borrow.{sem};
ghost use Rattle.gtfs_devices.specs.Device.{FailsAtLast, MakesCalls, MakesSomeCalls};
ghost use Rattle.gtfs_table.specs.ReadingEnds.{EndsAtFile, EndsReading};
ghost use Rattle.gtfs_table.specs.FileNames.{file_name};
ghost use Rattle.gtfs_table.specs.LentTables.{LendsTable};
ghost use Rattle.gtfs_devices.specs.Folder.{CountsFault, IsByBytes, RefusesRead};
ghost use Rattle.gtfs_table.specs.TablesRead.{is_kept, kept_files, AllHoldWithin, AreOthers, other_names as names_kept_out, HoldsDataset, HoldsTable, HoldsWithin, RefusesDataset, SetsTables};
ghost use Rattle.gtfs_table.specs.Rows.{is_row as row_of, numbered, records_in, rows as row_numbers};
ghost use Rattle.gtfs_table.specs.Tables.{column_of, empty_dataset, field_cut, record_at, table_of, table_state, value, with_field, with_record, with_table};
ghost use Rattle.gtfs_table.specs.TableTexts.{text_of_table, ReadsBack};

use crate::file::File;
use crate::record::Record;
use crate::rows::Rows;
use crate::state::State;
use crate::table::FileTable;
use crate::table_reader::TableReader;
use gtfs_devices::{FolderFault, Folders};
use gtfs_field::{OutOfMemory, Text};
use std::alloc::Global;
use std::marker::Model;
use std::mem;

/// The nine kept files of a GTFS Schedule dataset as tables,
/// and the names of what else its folder holds.
///
/// A table is a list of records of fields. Rows are numbered from 1, and row 1 is the header;
/// fields and columns are numbered from 0. A table keeps its fields as they were read or pushed;
/// what reads a field cuts the blanks (spaces and control characters) at both its ends.
pub struct Tables {
    agency: FileTable,
    stops: FileTable,
    routes: FileTable,
    trips: FileTable,
    stop_times: FileTable,
    calendar: FileTable,
    calendar_dates: FileTable,
    frequencies: FileTable,
    transfers: FileTable,
    others: Vec<Text>,
}

impl Model for Tables {
    ghost use Rattle.gtfs_table.specs.Tables.{Dataset};

    ghost Value = { Dataset };

    ghost view = { λ t. record {
      agency = t.agency;
      stops = t.stops;
      routes = t.routes;
      trips = t.trips;
      stop_times = t.stop_times;
      calendar = t.calendar;
      calendar_dates = t.calendar_dates;
      frequencies = t.frequencies;
      transfers = t.transfers;
      others = t.others.items;
    } };

    ghost use Rattle.gtfs_table.specs.TablesRead.{AreOthers};

    ghost invariant = { λ t. AreOthers t.others.items };
}

// Written out, so that a function that lets tables go has one call to prove.
impl Drop for Tables {
    fn drop(self) {
        let Tables {
            agency: _,
            stops: _,
            routes: _,
            trips: _,
            stop_times: _,
            calendar: _,
            calendar_dates: _,
            frequencies: _,
            transfers: _,
            others: _,
        } = self;
    }
}

impl Tables {
    /// Tables of no file, with no other name. It takes no memory.
    pub fn empty(alloc: Global) -> Tables
        ensures { result ≡ empty_dataset }
    {
        Tables::of_names(Vec::new(alloc), alloc)
    }

    fn of_names(others: Vec<Text>, alloc: Global) -> Tables
        requires { AreOthers others.items }
        ensures { result ≡ record empty_dataset { others = others.items } }
    {
        Tables {
            agency: FileTable::absent(alloc),
            stops: FileTable::absent(alloc),
            routes: FileTable::absent(alloc),
            trips: FileTable::absent(alloc),
            stop_times: FileTable::absent(alloc),
            calendar: FileTable::absent(alloc),
            calendar_dates: FileTable::absent(alloc),
            frequencies: FileTable::absent(alloc),
            transfers: FileTable::absent(alloc),
            others,
        }
    }

    /// Reads a folder: first its names, and then each kept file in the order of [`File::ALL`],
    /// whichever names there were. The first fault ends it.
    ///
    /// Leading byte order marks are dropped, and what follows has to be UTF-8. The records of a
    /// file are those that `csv` reads by default, with no header handling, of any lengths.
    ///
    /// # Errors
    /// `Read` where the device failed, and its count of failures rose; at any other the count is as
    /// it was. `TooLarge` where a kept file is longer than the device's limit, `NoFolder` where
    /// there is no such folder, and `OutOfMemory` where memory is refused.
    pub fn read<F: Folders>(
        alloc: Global,
        folders: &mut F,
        dir: &str,
    ) -> Result<Tables, FolderFault>
        ensures reads { IfOk result (λ tables. HoldsDataset (F.held folders.old) dir.now tables) }
        ensures within { OnOk result
            (AllHoldWithin (F.limit folders.old) (F.held folders.old) dir.now kept_files) }
        ensures refused { IfErr result
            (λ fault. RefusesDataset fault (F.limit folders.old) (F.held folders.old) dir.now
            (F.failure_count folders.old) (F.failure_count folders.new)) }
        ensures unchanged { F.held folders.new ≡ F.held folders.old }
        ensures grows { F.failure_count folders.old ≤ F.failure_count folders.new }
        ensures no_failure { OnOk result
            (F.failure_count folders.new ≡ F.failure_count folders.old) }
        ensures counts_fault { IfErr result
            (λ fault. CountsFault fault
            (F.failure_count folders.old) (F.failure_count folders.new)) }
        ensures same_limit { F.limit folders.new ≡ F.limit folders.old }
        ensures called { OnOk result (MakesCalls 10 (F.calls folders.old) (F.calls folders.new)) }
        ensures called_until { OnErr result
            (MakesSomeCalls 10 (F.calls folders.old) (F.calls folders.new)) }
        ensures stopped { IfErr result
            (λ fault. EndsReading fault (F.limit folders.old) (F.held folders.old) dir.now
            (F.failure_count folders.old) (F.failure_count folders.new)
            (F.calls folders.old) (F.calls folders.new)) }
        ensures ends { IsErrOf result FolderFault.Read → FailsAtLast (F.calls folders.new) }
    {
        Tables::read_in(alloc, folders, dir, Vec::new(alloc))
    }

    /// Reads a folder as [`Tables::read`] does, and keeps the fields of stop_times.txt in the
    /// memory of these bytes, which are let go. So less memory is touched for the first time where
    /// one folder is read after another ([`Tables::into_memory`]).
    ///
    /// # Errors
    /// Those of [`Tables::read`].
    pub fn read_in<F: Folders>(
        alloc: Global,
        folders: &mut F,
        dir: &str,
        memory: Vec<u8>,
    ) -> Result<Tables, FolderFault>
        ensures reads { IfOk result (λ tables. HoldsDataset (F.held folders.old) dir.now tables) }
        ensures within { OnOk result
            (AllHoldWithin (F.limit folders.old) (F.held folders.old) dir.now kept_files) }
        ensures refused { IfErr result
            (λ fault. RefusesDataset fault (F.limit folders.old) (F.held folders.old) dir.now
            (F.failure_count folders.old) (F.failure_count folders.new)) }
        ensures unchanged { F.held folders.new ≡ F.held folders.old }
        ensures grows { F.failure_count folders.old ≤ F.failure_count folders.new }
        ensures no_failure { OnOk result
            (F.failure_count folders.new ≡ F.failure_count folders.old) }
        ensures counts_fault { IfErr result
            (λ fault. CountsFault fault
            (F.failure_count folders.old) (F.failure_count folders.new)) }
        ensures same_limit { F.limit folders.new ≡ F.limit folders.old }
        ensures called { OnOk result (MakesCalls 10 (F.calls folders.old) (F.calls folders.new)) }
        ensures called_until { OnErr result
            (MakesSomeCalls 10 (F.calls folders.old) (F.calls folders.new)) }
        ensures stopped { IfErr result
            (λ fault. EndsReading fault (F.limit folders.old) (F.held folders.old) dir.now
            (F.failure_count folders.old) (F.failure_count folders.new)
            (F.calls folders.old) (F.calls folders.new)) }
        ensures ends { IsErrOf result FolderFault.Read → FailsAtLast (F.calls folders.new) }
    {
        let names = folders.names(alloc, dir)?;
        let mut tables = Tables::of_names(other_names(alloc, names)?, alloc);
        tables.read_files(alloc, folders, dir, memory)?;
        Ok(tables)
    }

    /// Lets the tables go, but for the memory of the fields of stop_times.txt, in which those of
    /// another folder can be read ([`Tables::read_in`]). Nothing is in it. It takes no memory.
    pub fn into_memory(self) -> Vec<u8>
        ensures { result.items ≡ [] }
    {
        let Tables {
            agency: _,
            stops: _,
            routes: _,
            trips: _,
            stop_times,
            calendar: _,
            calendar_dates: _,
            frequencies: _,
            transfers: _,
            others: _,
        } = self;
        stop_times.into_memory()
    }

    /// Whether a file is there, and is UTF-8. One that is not has no record.
    pub fn state(&self, file: File) -> State
        ensures state { result ≡ table_state (table_of self.now file) }
        ensures unread { result ≢ State.Read → records_in self.now file ≡ [] }
    {
        self.table(file).state()
    }

    /// How many records a file has, the header among them: none where it is absent or not UTF-8.
    pub fn records(&self, file: File) -> usize
        ensures { result ≡ length (records_in self.now file) }
    {
        self.table(file).len()
    }

    /// The rows of a file in its order, each with its number and its record: the records after the
    /// header, which is row 1, that have a field that is not blank.
    pub fn rows(&self, file: File) -> Rows<'_>
        ensures { result ≡ map (numbered (records_in self.now file)) (row_numbers self.now file) }
    {
        self.table(file).rows()
    }

    /// The record of the row with this number:
    /// none where the record is the header or is blank, or where there is none.
    #[inline]
    pub fn row(&self, file: File, n: usize) -> Option<Record<'_>>
        ensures there { is_some result ≡ row_of (records_in self.now file) n }
        ensures fields { IfSome result (λ r. r ≡ record_at (records_in self.now file) n) }
    {
        if n <= 1 || n > self.records(file) {
            return None;
        }
        let record = self.record(file, n);
        if record.has_value() {
            Some(record)
        } else {
            None
        }
    }

    /// Whether there is a row with this number:
    /// a record after the header with a field that is not blank.
    pub fn is_row(&self, file: File, n: usize) -> bool
        ensures { result ≡ row_of (records_in self.now file) n }
    {
        self.row(file, n).is_some()
    }

    /// A record by its number, for a caller that reads many fields of it:
    /// one with no field where there is no such record.
    pub fn record(&self, file: File, row: usize) -> Record<'_>
        ensures { result ≡ record_at (records_in self.now file) row }
    {
        self.table(file).record(row)
    }

    /// How many fields the record of a row has: none where there is no such row.
    pub fn fields(&self, file: File, row: usize) -> usize
        ensures { result ≡ length (record_at (records_in self.now file) row) }
    {
        self.record(file, row).len()
    }

    /// A field of a row, cut of its blanks: the empty text where there is no such field.
    pub fn field(&self, file: File, row: usize, n: usize) -> &str
        ensures { result.now ≡ field_cut (record_at (records_in self.now file) row) n }
    {
        self.record(file, row).field(n)
    }

    /// The index of a column: that of the first field of the header which, cut of its blanks, is
    /// this name. The empty name is no column.
    ///
    /// A column is looked up once, and its fields are then read by [`Tables::field`] row after row.
    pub fn column(&self, file: File, name: &str) -> Option<usize>
        ensures { result ≡ column_of (records_in self.now file) name.now }
    {
        self.table(file).column(name)
    }

    /// The value of a column in a row: the field under the first header column of that name, cut of
    /// its blanks, and the empty text where there is none.
    pub fn value(&self, file: File, row: usize, column: &str) -> &str
        ensures { result.now ≡ value (records_in self.now file) row column.now }
    {
        match self.column(file, column) {
            Some(n) => self.field(file, row, n),
            None => "",
        }
    }

    /// The names of what else the folder holds, in the order of their bytes.
    /// None is that of a kept file.
    pub fn others(&self) -> &[Text]
        ensures value { result.now ≡ self.now.others }
        ensures ordered { IsByBytes result.now }
        ensures not_kept { All (λ name. is_kept name ≡ false) result.now }
    {
        self.others.as_slice()
    }

    /// Adds a record of this one field to a file, which then counts as there and as UTF-8.
    ///
    /// # Errors
    /// `OutOfMemory` where memory is refused; all is then as it was.
    pub fn push_record(&mut self, file: File, field: &str) -> Result<(), OutOfMemory>
        ensures ok { OnOk result
            (self.new ≡ with_table self.old file (with_record (table_of self.old file) field.now)) }
        ensures err { OnErr result (self.new ≡ self.old) }
    {
        self.table_mut(file).push_record(field)
    }

    /// Adds a field to the last record of a file, which has to have one.
    ///
    /// # Errors
    /// `OutOfMemory` where memory is refused; all is then as it was.
    pub fn push_field(&mut self, file: File, field: &str) -> Result<(), OutOfMemory>
        requires { 0 < length (records_in self.old file) }
        ensures ok { OnOk result
            (self.new ≡ with_table self.old file (with_field (table_of self.old file) field.now)) }
        ensures err { OnErr result (self.new ≡ self.old) }
    {
        self.table_mut(file).push_field(field)
    }

    /// The text of a file as `csv` writes it by default (RFC 4180, section 2, with LF at the end of
    /// each record): none where the file is absent, and an empty text where it is not UTF-8.
    ///
    /// Read again, the text gives the same table, if the file is UTF-8 and its very first field
    /// does not begin with a byte order mark, which a reader would cut. A record of one empty field
    /// is written as two quotes, and so is read back too.
    ///
    /// # Errors
    /// `OutOfMemory` where memory is refused.
    pub fn write(&self, alloc: Global, file: File) -> Result<Option<Vec<u8>>, OutOfMemory>
        ensures text { IfOk result (λ text. option_map (λ bytes. bytes.items) text
            ≡ text_of_table (table_of self.now file)) }
        ensures reads_back { IfOk result (λ text. ReadsBack (table_of self.now file)
            (option_map (λ bytes. bytes.items) text)) }
    {
        self.table(file).write(alloc)
    }

    fn read_files<F: Folders>(
        &mut self,
        alloc: Global,
        folders: &mut F,
        dir: &str,
        mut memory: Vec<u8>,
    ) -> Result<(), FolderFault>
        ensures sets { OnOk result
            (SetsTables (F.held folders.old) dir.now kept_files self.old self.new) }
        ensures within { OnOk result
            (AllHoldWithin (F.limit folders.old) (F.held folders.old) dir.now kept_files) }
        ensures refused { IfErr result
            (λ fault. RefusesDataset fault (F.limit folders.old) (F.held folders.old) dir.now
            (F.failure_count folders.old) (F.failure_count folders.new)) }
        ensures unchanged { F.held folders.new ≡ F.held folders.old }
        ensures grows { F.failure_count folders.old ≤ F.failure_count folders.new }
        ensures no_failure { OnOk result
            (F.failure_count folders.new ≡ F.failure_count folders.old) }
        ensures counts_fault { IfErr result
            (λ fault. CountsFault fault
            (F.failure_count folders.old) (F.failure_count folders.new)) }
        ensures same_limit { F.limit folders.new ≡ F.limit folders.old }
        ensures called { OnOk result (MakesCalls 9 (F.calls folders.old) (F.calls folders.new)) }
        ensures called_until { OnErr result
            (MakesSomeCalls 9 (F.calls folders.old) (F.calls folders.new)) }
        ensures stopped { IfErr result
            (λ fault. EndsAtFile fault (F.limit folders.old) (F.held folders.old) dir.now
            (F.failure_count folders.old) (F.failure_count folders.new)
            (F.calls folders.old) (F.calls folders.new)) }
        ensures ends { IsErrOf result FolderFault.Read → FailsAtLast (F.calls folders.new) }
    {
        for file in &File::ALL {
            let kept = memory_for(*file, &mut memory);
            let table = read_file(alloc, folders, dir, *file, kept)?;
            self.set(*file, table);
        }
        Ok(())
    }

    fn set(&mut self, file: File, table: FileTable)
        ensures { self.new ≡ with_table self.old file table }
    {
        *self.table_mut(file) = table;
    }

    fn table_mut(&mut self, file: File) -> &mut FileTable
        ensures* writes_back { sem 𝓛 (LendsTable self.entry file result) }
        ensures value { result.now ≡ table_of self.old file }
    {
        match file {
            File::Agency => &mut self.agency,
            File::Stops => &mut self.stops,
            File::Routes => &mut self.routes,
            File::Trips => &mut self.trips,
            File::StopTimes => &mut self.stop_times,
            File::Calendar => &mut self.calendar,
            File::CalendarDates => &mut self.calendar_dates,
            File::Frequencies => &mut self.frequencies,
            File::Transfers => &mut self.transfers,
        }
    }

    fn table(&self, file: File) -> &FileTable
        ensures { result.now ≡ table_of self.now file }
    {
        match file {
            File::Agency => &self.agency,
            File::Stops => &self.stops,
            File::Routes => &self.routes,
            File::Trips => &self.trips,
            File::StopTimes => &self.stop_times,
            File::Calendar => &self.calendar,
            File::CalendarDates => &self.calendar_dates,
            File::Frequencies => &self.frequencies,
            File::Transfers => &self.transfers,
        }
    }
}

// The memory that the fields of a file are to lie in: all there is for stop_times.txt, which is the
// largest file by far, and none for another.
fn memory_for(file: File, memory: &mut Vec<u8>) -> Vec<u8> {
    let none = Vec::new(*memory.allocator());
    match file {
        File::StopTimes => mem::replace(memory, none),
        _ => none,
    }
}

// The file is taken piece after piece, so that its bytes are never whole in memory.
fn read_file<F: Folders>(
    alloc: Global,
    folders: &mut F,
    dir: &str,
    file: File,
    memory: Vec<u8>,
) -> Result<FileTable, FolderFault>
    ensures reads { IfOk result (λ table. HoldsTable (F.held folders.old) dir.now file table) }
    ensures within { OnOk result
        (HoldsWithin (F.limit folders.old) (F.held folders.old) dir.now file) }
    ensures refused { IfErr result
        (λ fault. RefusesRead fault (F.limit folders.old) (F.held folders.old) dir.now
        (file_name file) (F.failure_count folders.old) (F.failure_count folders.new)) }
    ensures unchanged { F.held folders.new ≡ F.held folders.old }
    ensures grows { F.failure_count folders.old ≤ F.failure_count folders.new }
    ensures no_failure { OnOk result (F.failure_count folders.new ≡ F.failure_count folders.old) }
    ensures counts_fault { IfErr result
        (λ fault. CountsFault fault (F.failure_count folders.old) (F.failure_count folders.new)) }
    ensures same_limit { F.limit folders.new ≡ F.limit folders.old }
    ensures called { MakesCalls 1 (F.calls folders.old) (F.calls folders.new) }
    ensures ends { IsErrOf result FolderFault.Read → FailsAtLast (F.calls folders.new) }
{
    let mut reader = TableReader::new(memory);
    if folders.lend(alloc, dir, file.name(), &mut reader)? {
        Ok(reader.into_table()?)
    } else {
        Ok(FileTable::absent(alloc))
    }
}

fn other_names(alloc: Global, names: Vec<Text>) -> Result<Vec<Text>, OutOfMemory>
    ensures { IfOk result (λ others. others.items ≡ names_kept_out names.items) }
{
    let mut others = Vec::new(alloc);
    for name in names {
        if !is_kept(name.as_str()) {
            others.push(name)?;
        }
    }
    Ok(others)
}

fn is_kept(name: &str) -> bool
    ensures { result ≡ is_kept name.now }
{
    File::ALL.iter().any(|file| file.name() == name)
}
