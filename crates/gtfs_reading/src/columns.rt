//! The columns of a file, found once.

ghost use Rattle.std.specs.Prelude.{◌≡◌, length, map};
ghost use Rattle.gtfs_schema.specs.Columns.{columns_of};
ghost use Rattle.gtfs_schema.specs.steps.ColumnView.{column_of};
ghost use Rattle.gtfs_reading.specs.ColumnIndices.{column_indices};

use gtfs_schema::Column;
use gtfs_table::{File, Tables};

// The indices of the kept columns of a file, each at the place that its column has among them.
pub(crate) fn column_indices<const N: usize>(
    tables: &Tables,
    file: File,
    kept: &[Column],
) -> [Option<usize>; N]
    requires kept { map column_of kept.now ≡ columns_of file }
    requires count { length kept.now ≡ N }
    ensures { result ≡ column_indices tables.now file }
{
    let mut indices = [None; N];
    for place in 0..N {
        indices[place] = tables.column(file, kept[place].name);
    }
    indices
}
