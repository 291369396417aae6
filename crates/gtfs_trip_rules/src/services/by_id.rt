ghost use Rattle.std.specs.Prelude.{◌≡◌, ℕ, List, bytes_eq, filter, map, IfOk};
ghost use Rattle.gtfs_trip_rules.specs.RowsById.{row_with_id, rows_of, text_under};
ghost use Rattle.gtfs_table.specs.Rows.{rows};

use gtfs_field::OutOfMemory;
use gtfs_table::{File, Tables};
use std::alloc::Global;
use std::marker::Model;

/// The rows of a file by the ids of one of its columns:
/// those with one id stand in the order of the file.
#[derive(Drop)]
pub struct RowsById<'a> {
    rows: Vec<(&'a str, usize)>,
}

impl<'a> Model for RowsById<'a> {
    ghost use Rattle.std.specs.Prelude.{ℕ, List, map};
    ghost use Rattle.gtfs_trip_rules.specs.RowsById.{row_with_id, IsById};

    ghost Value = { List (List ℕ × ℕ) };

    ghost view = { λ r. map row_with_id r.rows.items };

    ghost invariant = { λ r. IsById r.rows.items };
}

impl<'a> RowsById<'a> {
    /// The rows of a file of these tables, by the ids of the column with this index.
    /// They borrow the ids from the tables.
    ///
    /// # Errors
    /// `OutOfMemory` where the list of rows cannot grow, or there is no room to sort it.
    pub fn new(
        alloc: Global,
        tables: &'a Tables,
        file: File,
        id: Option<usize>,
    ) -> Result<RowsById<'a>, OutOfMemory>
        ensures { IfOk result (λ found. (t : List ℕ) → rows_of found t
            ≡ filter (λ n. bytes_eq (text_under tables.now file id n) t) (rows tables.now file)) }
    {
        let mut rows = read_ids(alloc, tables, file, id)?;
        rows.sort_by_key(|row| row.0)?;
        Ok(RowsById { rows })
    }

    /// The rows with an id, each beside it, in the order of the file.
    pub fn of(&self, id: &str) -> &[(&'a str, usize)]
        ensures { map (λ r. r.1) result.now ≡ rows_of self.now id.now }
    {
        let rows = self.rows.as_slice();
        let from = rows.partition_point(|row| row.0 < id);
        let rest = &rows[from..];
        let until = rest.partition_point(|row| row.0 <= id);
        &rest[..until]
    }
}

// The rows of a file with their ids, in the file's order.
fn read_ids<'a>(
    alloc: Global,
    tables: &'a Tables,
    file: File,
    id: Option<usize>,
) -> Result<Vec<(&'a str, usize)>, OutOfMemory>
    ensures { IfOk result (λ found. map row_with_id found.items
        ≡ map (λ n. (text_under tables.now file id n, n)) (rows tables.now file)) }
{
    let mut found = Vec::new(alloc);
    for (row, record) in tables.rows(file) {
        found.push((record.value(id), row))?;
    }
    Ok(found)
}
