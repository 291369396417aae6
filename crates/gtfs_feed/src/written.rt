ghost use Rattle.std.specs.Prelude.{◌≡◌, IfOk, Some, string_bytes};
ghost use Rattle.std.specs.List.{list_any};
ghost use Rattle.gtfs_rows.specs.WrittenContent.{written};
ghost use Rattle.gtfs_rows.specs.WrittenForm.{IsWrittenForm};
ghost use Rattle.gtfs_table.specs.TablesRead.{kept_files};
ghost use Rattle.gtfs_table.specs.Tables.{table_of, table_of_bytes};
ghost use Rattle.gtfs_table.specs.TableTexts.{text_of_table};
ghost use Rattle.gtfs_rows.specs.FileTexts.{is_longer};
ghost use Rattle.gtfs_rows.specs.RowsInMemory.{content_of_parts};

use crate::feed::Feed;
use gtfs_field::OutOfMemory;
use gtfs_table::{File, Tables};
use std::alloc::Global;

// The written form: what a feed looks like as files.
impl Feed {
    /// The nine files of the feed as tables: each has the header of its kept columns and a row
    /// of canonical texts for each row of the feed (GTFS Schedule Reference, "Field
    /// Definitions"). No other file is there.
    ///
    /// The tables pass the validator, and read back they are the same feed,
    /// whatever else their folder holds.
    ///
    /// # Errors
    /// `OutOfMemory` where memory is refused. Then nothing of the tables is left.
    pub fn to_tables(&self, alloc: Global) -> Result<Tables, OutOfMemory>
        ensures tables { IfOk result (λ tables. tables ≡ written (content_of_parts self.now)) }
        ensures form { IsWrittenForm (content_of_parts self.now) }
    {
        gtfs_writing::tables(alloc, self.parts())
    }

    /// The text of one file of the feed, made without a table: it is what
    /// [`Tables::write`](gtfs_table::Tables::write) gives of that file of [`Feed::to_tables`], and
    /// read again it gives the same table (RFC 4180, section 2, with LF at the end of each record).
    ///
    /// # Errors
    /// `OutOfMemory` where memory is refused. Then nothing of the text is left.
    pub fn file_text(&self, alloc: Global, file: File) -> Result<String, OutOfMemory>
        ensures text { IfOk result (λ text. text_of_table
            (table_of (written (content_of_parts self.now)) file) ≡ Some (string_bytes text)) }
        ensures reads_back { IfOk result (λ text. table_of_bytes (Some (string_bytes text))
            ≡ table_of (written (content_of_parts self.now)) file) }
        ensures form { IsWrittenForm (content_of_parts self.now) }
    {
        gtfs_writing::file_text(alloc, self.parts(), file)
    }

    /// The same text, in the memory of these bytes, which are let go. So less memory is touched
    /// for the first time.
    ///
    /// # Errors
    /// `OutOfMemory` where memory is refused. Then nothing of the text is left.
    pub fn file_text_in(
        &self,
        alloc: Global,
        file: File,
        memory: Vec<u8>,
    ) -> Result<String, OutOfMemory>
        ensures text { IfOk result (λ text. text_of_table
            (table_of (written (content_of_parts self.now)) file) ≡ Some (string_bytes text)) }
        ensures reads_back { IfOk result (λ text. table_of_bytes (Some (string_bytes text))
            ≡ table_of (written (content_of_parts self.now)) file) }
        ensures form { IsWrittenForm (content_of_parts self.now) }
    {
        gtfs_writing::file_text_in(alloc, self.parts(), file, memory)
    }

    /// Whether the text of some file, as [`Feed::file_text`] gives it, has more bytes than this
    /// limit. No text is made: each file is counted, in one pass.
    ///
    /// # Errors
    /// `OutOfMemory` where memory is refused.
    pub fn has_longer_file(&self, alloc: Global, limit: u64) -> Result<bool, OutOfMemory>
        ensures { IfOk result (λ any. any ≡ list_any
            (is_longer (content_of_parts self.now) limit) kept_files) }
    {
        gtfs_writing::has_longer_file(alloc, self.parts(), limit)
    }
}
