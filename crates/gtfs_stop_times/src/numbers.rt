ghost use Rattle.std.specs.Prelude.{◌≡◌, IfOk};

use gtfs_field::OutOfMemory;

/// The number of a stop: the rank of its id among the ids of all stops of the feed, by bytes, from 0.
#[derive(Clone, Copy, Debug, PartialEq, Eq, PartialOrd, Ord)]
pub struct StopNo(pub usize);

/// The number of a headsign of a stop time: its index in the feed's list of headsigns, from 0.
#[derive(Clone, Copy, Debug, PartialEq, Eq, PartialOrd, Ord)]
pub struct HeadsignNo(pub u32);

/// A number in four bytes, as lists of millions keep it.
///
/// # Errors
/// `OutOfMemory` where the number is above 4,294,967,295: no number is left for so many rows.
#[inline(always)]
pub fn small_number(number: usize) -> Result<u32, OutOfMemory>
    ensures { IfOk result (λ small. small ≡ number) }
{
    match u32::try_from(number) {
        Ok(small) => Ok(small),
        Err(_) => Err(OutOfMemory),
    }
}
