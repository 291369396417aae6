ghost use Rattle.std.specs.Prelude.{◌≡◌, ◌++◌, OnOk};
ghost use Rattle.csv.specs.Reading.{default_config, records as records_of_text, strip_bom};
ghost use Rattle.gtfs_table.specs.Tables.{without_marks};

use crate::records::Records;
use csv::{ByteRecord, ReaderBuilder};
use gtfs_field::OutOfMemory;
use std::alloc::Global;

// U+FEFF in UTF-8.
const MARK: [u8; 3] = [0xEF, 0xBB, 0xBF];

// The bytes behind the byte order marks at their start.
pub(crate) fn cut_marks(bytes: &[u8]) -> &[u8]
    ensures { result.now ≡ without_marks bytes.now }
{
    let mut left = bytes;
    while let Some(rest) = left.strip_prefix(&MARK) {
        left = rest;
    }
    left
}

// Adds the records of a text. In memory it gives `csv` no error but want of memory.
pub(crate) fn read_all(alloc: Global, text: &str, records: &mut Records) -> Result<(), OutOfMemory>
    requires { strip_bom text.now ≡ text.now }
    ensures { OnOk result
        (records.new ≡ records.old ++ records_of_text default_config text.now) }
{
    let mut reader = ReaderBuilder::new()
        .has_headers(false)
        .flexible(true)
        .from_reader(alloc, text.as_bytes());
    let mut row = ByteRecord::new(alloc);
    loop {
        match reader.read_byte_record(&mut row) {
            Ok(true) => records.push_row(&row)?,
            Ok(false) => return Ok(()),
            Err(_) => return Err(OutOfMemory),
        }
    }
}
