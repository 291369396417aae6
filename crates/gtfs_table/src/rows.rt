ghost use Rattle.std.specs.Prelude.{◌≡◌, ◌<◌};
ghost use Rattle.gtfs_table.specs.Rows.{rows_past};

use crate::record::Record;
use crate::records::Records;
use std::marker::Model;

/// The rows of a file that are still to come, in its order, each with its number and its record.
///
/// A row is a record after the header of which not all fields are blank. Rows have the numbers of
/// their records, from 2, so those of blank records are missing.
#[derive(Drop)]
pub struct Rows<'a> {
    records: &'a Records,
    count: usize,
    passed: usize,
}

impl<'a> Model for Rows<'a> {
    ghost use Rattle.std.specs.Prelude.{◌<◌, List};
    ghost use Rattle.gtfs_table.specs.Rows.{Row, rows_past};

    ghost Value = { List Row };

    ghost view = { λ r. rows_past r.records.now r.passed };

    ghost use Rattle.gtfs_table.specs.StoredRecords.{AreRowsWithin};

    ghost invariant = { AreRowsWithin };
}

impl<'a> Rows<'a> {
    // The rows after the first records, as many as `passed`, of which the first is the header.
    pub(crate) fn past(records: &'a Records, passed: usize) -> Rows<'a>
        requires { 0 < passed }
        ensures { result ≡ rows_past records.now passed }
    {
        Rows {
            records,
            count: records.len(),
            passed,
        }
    }
}

impl<'a> Iterator for Rows<'a> {
    type Item = (usize, Record<'a>);

    ghost use Rattle.std.specs.Iterator.{YieldsFirst, item_count};

    ghost next_gives = { YieldsFirst (λ rows. rows) };

    ghost remaining = { item_count (λ rows. rows) };

    #[inline(always)]
    fn next(&mut self) -> Option<(usize, Record<'a>)> {
        while self.passed < self.count {
            let record = self.records.record_after(self.passed);
            self.passed += 1;
            if record.has_value() {
                return Some((self.passed, record));
            }
        }
        None
    }
}
