use gtfs_field::OutOfMemory;
use thiserror::Error;

/// Why two feeds are not merged.
#[derive(Clone, Copy, Debug, PartialEq, Eq, Error)]
pub enum MergeFault {
    /// The times of the two feeds are in zones of different names, which is judged first.
    #[error("zones differ")]
    ZoneDiffers = 1,
    /// The text of some file of the merged feed is longer than the limit.
    #[error("merged feed too large")]
    TooLarge = 2,
    /// Memory was refused, or stop times have more than 4,294,967,295 different headsigns.
    #[error("out of memory")]
    OutOfMemory = 3,
}

impl From<OutOfMemory> for MergeFault {
    ghost use Rattle.std.specs.Prelude.{◌≡◌};
    ghost use Rattle.gtfs_merge.specs.declared.merging.fault.MergeFault.TheVariants.{OutOfMemory as no_memory};

    ghost from_gives = { λ _ fault. fault ≡ no_memory };

    fn from(_refused: OutOfMemory) -> MergeFault {
        MergeFault::OutOfMemory
    }
}
