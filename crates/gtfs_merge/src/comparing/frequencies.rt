ghost use Rattle.std.specs.Prelude.{◌≡◌};
ghost use Rattle.gtfs_rows.specs.RowsInMemory.{frequency_of};
ghost use Rattle.gtfs_merge.specs.SameRows.{same_frequency};
ghost use Rattle.gtfs_merge.specs.SameByNumber.{same_frequencies_in};

use gtfs_rows::Frequency;

// Whether two frequencies are the same.
pub(crate) fn is_same_frequency(a: Frequency, b: Frequency) -> bool
    ensures { result ≡ same_frequency (frequency_of a) (frequency_of b) }
{
    a.start_time.seconds() == b.start_time.seconds()
        && a.end_time.seconds() == b.end_time.seconds()
        && a.headway_secs == b.headway_secs
        && a.exact_times.number() == b.exact_times.number()
}

// Whether the frequencies of two trips are the same, one by one.
pub(crate) fn are_same_frequencies(a: &[Frequency], b: &[Frequency]) -> bool
    ensures { result ≡ same_frequencies_in a.now b.now }
{
    if a.len() != b.len() {
        return false;
    }
    for number in 0..a.len() {
        if !is_same_frequency(a[number], b[number]) {
            return false;
        }
    }
    true
}
