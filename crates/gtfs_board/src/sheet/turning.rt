//! A table turned round: its lines become its columns.
ghost use Rattle.std.specs.Prelude.{◌≡◌, ◌<◌, All, IfOk, None, length, map, slice_index_or};
ghost use Rattle.std.specs.List.{range_with_len};

use gtfs_field::{Clock, List, OutOfMemory};
use std::alloc::Global;

// A line for each place in lines that have so many.
pub(super) fn turned(
    alloc: Global,
    lines: &[Vec<Option<Clock>>],
    width: usize,
) -> Result<Vec<List<Option<Clock>>>, OutOfMemory>
    requires { All (λ line. length line.items ≡ width) lines.now }
    ensures { IfOk result (λ table. table.items
        ≡ map (λ i. map (λ line. slice_index_or line.items i None) lines.now)
        (range_with_len 0 width)) }
{
    let mut table = Vec::with_capacity(alloc, width)?;
    for place in 0..width {
        table.push(times_across(alloc, lines, place)?)?;
    }
    Ok(table)
}

// What stands at a place in each line.
fn times_across(
    alloc: Global,
    lines: &[Vec<Option<Clock>>],
    place: usize,
) -> Result<List<Option<Clock>>, OutOfMemory>
    requires { All (λ line. place < length line.items) lines.now }
    ensures { IfOk result (λ times. times
        ≡ map (λ line. slice_index_or line.items place None) lines.now) }
{
    let mut times = Vec::with_capacity(alloc, lines.len())?;
    for line in lines {
        times.push(line[place])?;
    }
    Ok(List::new(times))
}
