use gtfs_field::Day;

/// What a merge keeps to.
#[derive(Clone, Copy, Debug, PartialEq, Eq)]
pub struct Options {
    /// How many bytes each file of the merged feed may have at most, as
    /// [`file_text`](gtfs_feed::Feed::file_text) gives it. Where nothing else is said,
    /// 1,073,741,824.
    pub file_limit: u64,
    /// Up to how many millionths of a degree a stop of the second feed may lie from one of the
    /// first, in latitude and in longitude, to become that stop: see
    /// [`Names::near`](crate::Names::near). At most 2,147,483,647. Where nothing else is said, no
    /// stop does.
    pub near: Option<u32>,
    /// The service day from which on the second feed is taken, and the first one only before it.
    /// Its year is at most 9998. Where nothing else is said, both feeds are taken whole.
    pub cutoff: Option<Day>,
}

impl Default for Options {
    ghost use Rattle.std.specs.Prelude.{◌≡◌, None};
    ghost use Rattle.gtfs_merge.specs.Merging.{default_file_limit};

    ghost is_default = { λ options. (options.file_limit ≡ default_file_limit)
        × (options.near ≡ None) × (options.cutoff ≡ None) };

    fn default() -> Options {
        Options {
            file_limit: 1_073_741_824,
            near: None,
            cutoff: None,
        }
    }
}
