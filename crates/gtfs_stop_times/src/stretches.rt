ghost use Rattle.std.specs.Prelude.{◌≡◌, ◌<◌, ◌+◌, Some, length, slice_get, slice_index_or};
ghost use Rattle.csv.specs.Records.{Rising};
ghost use Rattle.gtfs_table.specs.FieldOffsets.{parts};

/// The rows of one trip in a list of the rows of all trips, trip after trip: from the start of this
/// number to the next start, or to the end. The starts rise, from 0 on, and none lies past the end
/// of the list; the number is that of a start.
pub fn stretch<'a, T>(rows: &'a [T], starts: &[usize], number: usize) -> &'a [T]
    requires rising { Rising 0 starts.now (length rows.now) }
    requires within { number < length starts.now }
    ensures { slice_get (parts starts.now rows.now) number ≡ Some result.now }
{
    let start = starts[number];
    let end = end_of(starts, number, rows.len());
    &rows[start..end]
}

// Where the stretch of this number ends in a list of this length.
pub(crate) fn end_of(starts: &[usize], number: usize, len: usize) -> usize
    requires { number < length starts.now }
    ensures { result ≡ slice_index_or starts.now (number + 1) len }
{
    starts.get(number + 1).copied().unwrap_or(len)
}
