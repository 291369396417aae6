ghost use Rattle.std.specs.Prelude.{◌≡◌, ◌<◌, [], length, IfOk, OnOk, Some, false, slice_index_or};
ghost use Rattle.csv.specs.Records.{fields_of};
ghost use Rattle.gtfs_table.specs.TableTexts.{is_marked, text_of_records};
ghost use Rattle.gtfs_table.specs.Tables.{of_records, table_of_bytes};

use crate::record::Record;
use crate::records::Records;
use csv::{ByteRecord, WriterBuilder};
use gtfs_field::OutOfMemory;
use std::alloc::Global;

// The text of records as `csv` writes it by default, but that records may differ in length.
pub(crate) fn write_records(alloc: Global, records: &Records) -> Result<Vec<u8>, OutOfMemory>
    ensures text { IfOk result (λ text. text.items ≡ text_of_records records.now) }
    ensures reads_back { IfOk result
        (λ text. is_marked records.now ≡ false
        → table_of_bytes (Some text.items) ≡ of_records records.now) }
{
    records.are_filled_with_text();
    let mut writer = WriterBuilder::new()
        .flexible(true)
        .from_writer(Vec::new(alloc));
    let mut row = ByteRecord::new(alloc);
    for i in 0..records.len() {
        copy_record(&records.record(i + 1), &mut row)?;
        if writer.write_byte_record(&row).is_err() {
            return Err(OutOfMemory);
        }
    }
    match writer.into_inner() {
        Ok(text) => Ok(text),
        Err(_) => Err(OutOfMemory),
    }
}

// The fields of a record, as one that `csv` writes.
pub(crate) fn copy_record(fields: &Record<'_>, row: &mut ByteRecord) -> Result<(), OutOfMemory>
    ensures { OnOk result (fields_of row.new ≡ fields.now) }
{
    row.clear();
    for n in 0..fields.len() {
        row.push_field(fields.raw(n).as_bytes())?;
    }
    Ok(())
}
