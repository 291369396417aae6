ghost use Rattle.std.specs.Prelude.{◌≡◌, IfOk, Some, string_bytes};
ghost use Rattle.std.specs.List.{list_any};
ghost use Rattle.gtfs_rows.specs.RowsInMemory.{IsSoundParts, content_of_parts};
ghost use Rattle.gtfs_rows.specs.WrittenContent.{written};
ghost use Rattle.gtfs_rows.specs.WrittenForm.{IsWrittenForm};
ghost use Rattle.gtfs_table.specs.TablesRead.{kept_files};
ghost use Rattle.gtfs_table.specs.Tables.{table_of, table_of_bytes};
ghost use Rattle.gtfs_table.specs.TableTexts.{text_of_table};
ghost use Rattle.gtfs_rows.specs.FileTexts.{is_longer};

use crate::bounds::is_surely_within;
use crate::fields::Fields;
use crate::files::write_file;
use crate::room_rows::RoomRows;
use crate::text_room::in_memory;
use gtfs_field::OutOfMemory;
use gtfs_rows::Parts;
use gtfs_table::File;
use std::alloc::Global;

/// The text of one file of a feed, made without a table: it is what
/// [`Tables::write`](gtfs_table::Tables::write) gives of that file of
/// [`tables`](crate::tables), a comma between fields, quotes only around a field that holds a
/// comma, a quote, CR or LF, a quote in it doubled, and LF after each record (RFC 4180, section
/// 2; GTFS Schedule Reference, "File Requirements").
///
/// Read again, it gives the same table; a folder of all nine passes the validator and is
/// the same feed, whatever else it holds. Memory that is refused is an error, and
/// nothing of the text is left then.
pub fn file_text(alloc: Global, parts: &Parts, file: File) -> Result<String, OutOfMemory>
    requires { IsSoundParts parts.now }
    ensures text { IfOk result (λ text. text_of_table
        (table_of (written (content_of_parts parts.now)) file) ≡ Some (string_bytes text)) }
    ensures reads_back { IfOk result (λ text. table_of_bytes (Some (string_bytes text))
        ≡ table_of (written (content_of_parts parts.now)) file) }
    ensures form { IsWrittenForm (content_of_parts parts.now) }
{
    file_text_in(alloc, parts, file, Vec::new(alloc))
}

/// The same text as [`file_text`] makes, in the memory of these bytes, which are let go.
///
/// Memory that is refused is an error, and nothing of the text is left then.
pub fn file_text_in(
    alloc: Global,
    parts: &Parts,
    file: File,
    memory: Vec<u8>,
) -> Result<String, OutOfMemory>
    requires { IsSoundParts parts.now }
    ensures text { IfOk result (λ text. text_of_table
        (table_of (written (content_of_parts parts.now)) file) ≡ Some (string_bytes text)) }
    ensures reads_back { IfOk result (λ text. table_of_bytes (Some (string_bytes text))
        ≡ table_of (written (content_of_parts parts.now)) file) }
    ensures form { IsWrittenForm (content_of_parts parts.now) }
{
    let empty = in_memory(alloc, parts, file, memory)?;
    let mut rows = Fields::new(alloc, empty);
    let outcome = write_file(parts, file, &mut rows);
    let text = rows.into_rows().into_text();
    match outcome {
        Ok(()) => Ok(text),
        Err(refused) => Err(refused),
    }
}

/// Whether the text of some file of a feed, as [`file_text`] gives it, has more bytes than this
/// limit. No text is made: each file is counted, in one pass, unless the number of its rows and
/// their longest texts tell already that it is short.
///
/// Memory that is refused is an error.
pub fn has_longer_file(alloc: Global, parts: &Parts, limit: u64) -> Result<bool, OutOfMemory>
    requires { IsSoundParts parts.now }
    ensures { IfOk result
        (λ any. any ≡ list_any (is_longer (content_of_parts parts.now) limit) kept_files) }
{
    for file in &File::ALL {
        if is_longer(alloc, parts, *file, limit)? {
            return Ok(true);
        }
    }
    Ok(false)
}

fn is_longer(alloc: Global, parts: &Parts, file: File, limit: u64) -> Result<bool, OutOfMemory>
    requires { IsSoundParts parts.now }
    ensures { IfOk result (λ longer. longer ≡ is_longer (content_of_parts parts.now) limit file) }
{
    if is_surely_within(parts, file, limit) {
        return Ok(false);
    }
    let mut rows = Fields::new(alloc, RoomRows::new(limit));
    let outcome = write_file(parts, file, &mut rows);
    let longer = rows.into_rows().is_passed();
    match outcome {
        Ok(()) => Ok(longer),
        Err(refused) => Err(refused),
    }
}
